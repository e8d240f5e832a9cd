ghost use Rattle.wc_dual.specs.Laws.{CertificatesBound, WalksAreFeasible};

/// A law alone: no feasible counts have a greater value than prices that hold.
pub fn certificates_bound()
    ensures { CertificatesBound }
{}

/// A law alone: how often a walk to the exit takes each step are feasible counts, where it meets the rows.
pub fn walks_are_feasible()
    ensures { WalksAreFeasible }
{}
