ghost use Rattle.std.specs.Prelude.{ℕ, List};
ghost use Rattle.wc_model.specs.declared.values.Outcome.{Outcome};
ghost use Rattle.wc_model.specs.Workspace.Edits.{Setting};
ghost use Rattle.wc_laws.specs.FeatureLaws.{FeatureTells, FeaturesAgree, HasAtMostOneFeature};
ghost use Rattle.wc_laws.specs.OneOutcome.{HasAtMostOneOutcome};
ghost use Rattle.wc_laws.specs.OneSession.{OneFront, OneHistory};
ghost use Rattle.wc_laws.specs.Safe.{ChainIsSafe};
ghost use Rattle.wc_laws.specs.WithoutMay.{CostsNeedNoMay, MayFlagsExist};

/// A law alone: each bound of the chain is at least the cycles of every path that meets the facts.
pub fn chain_is_safe()
    ensures { ChainIsSafe }
{}

/// A law alone: the chain has at most one outcome for inputs and a name.
pub fn one_outcome()
    ensures { HasAtMostOneOutcome }
{}

/// A law alone: a feature depends on the binary and on the parts of its kind's closure.
pub fn features_agree()
    ensures { FeaturesAgree }
{}

/// A law alone: a feature of the last kind tells the outcome of the chain.
pub fn feature_tells()
    ensures { FeatureTells }
{}

/// A law alone: each kind but that of solutions has at most one feature.
pub fn one_feature()
    ensures { HasAtMostOneFeature }
{}

/// A law alone: every graph has flags of may.
pub fn may_flags_exist()
    ensures { MayFlagsExist }
{}

/// A law alone: the costs of a graph's steps are found from must alone.
pub fn costs_need_no_may()
    ensures { CostsNeedNoMay }
{}

/// What names the outcomes of a workspace: the chain that its history is about.
pub trait Outcomes {
    ghost chain: { Setting → List ℕ → Outcome → Type 0 };
}

/// A law alone: with one session the whole history follows from its requests, the opening and the chain, where no memory
/// was wanted.
pub fn one_history<W: Outcomes>()
    ensures { OneHistory W.chain }
{}

/// A law alone: with one session a history that stops earlier is a front of the whole one.
pub fn one_front<W: Outcomes>()
    ensures { OneFront W.chain }
{}
