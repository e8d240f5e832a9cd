ghost use Rattle.std.specs.Prelude.{◌≡◌, ◌<◌, Some, length, reverse, slice_get};
ghost use Rattle.wc_model.specs.declared.graphs.Context.{Context};
ghost use Rattle.wc_model.specs.Flow.Bounds.{calls_fit as fits_calls};
ghost use Rattle.wc_system.specs.Inner.Contexts.{AreContexts, IsBelow, below_call, calls_in};

use wc_model::Context;

/// Whether the innermost calls of a context are those of a call string, which has the outermost one first.
pub fn calls_fit(contexts: &[Context], context: u32, within: &[u32]) -> bool
    requires parents { AreContexts contexts.now }
    requires known { context < length contexts.now }
    ensures { result ≡ fits_calls (reverse within.now) (calls_in contexts.now context) }
{
    let mut context = context;
    let mut rest = within;
    while let Some((at, outer)) = rest.split_last() {
        let Some(below) = context_below(contexts, context, *at) else {
            return false;
        };
        context = below;
        rest = outer;
    }
    true
}

fn context_below(contexts: &[Context], context: u32, at: u32) -> Option<u32>
    requires parents { AreContexts contexts.now }
    requires known { context < length contexts.now }
    ensures { IsBelow contexts.now context at result }
{
    below(contexts, context, at)
}

fn below(contexts: &[Context], context: u32, at: u32) -> Option<u32>
    requires { context < length contexts.now }
    ensures { (c : Context) → slice_get contexts.now context ≡ Some c → result ≡ below_call c at }
{
    let context = contexts[context as usize];
    match context.parent {
        Some(parent) if context.returns == at.wrapping_add(4) => Some(parent),
        _ => None,
    }
}
