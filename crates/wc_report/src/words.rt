ghost use Rattle.std.specs.Prelude.{◌≡◌, ◌≤◌};
ghost use Rattle.wc_report.specs.ReportText.{end_word, ended_word};
ghost use Rattle.wc_model.specs.Workspace.KindNames.{kind_name as kind_name_of};

use wc_model::{End, Ended};

/// The name of a kind of feature.
pub fn kind_name(kind: u8) -> &'static str
    requires { (1 ≤ kind) × (kind ≤ 11) }
    ensures { result.now ≡ kind_name_of kind }
{
    match kind {
        1 => "GRAPH",
        2 => "NEST",
        3 => "BOUNDS",
        4 => "LINES",
        5 => "MUST",
        6 => "MAY",
        7 => "CATEGORY",
        8 => "COST",
        9 => "SYSTEM",
        10 => "SOLUTION",
        _ => "BOUND",
    }
}

/// How a run ended.
pub fn end_name(end: End) -> &'static str
    ensures { result.now ≡ end_word end }
{
    match end {
        End::Kept => "kept",
        End::Dropped => "dropped",
        End::Memory => "memory",
    }
}

/// How a session ended.
pub fn ended_name(ended: Ended) -> &'static str
    ensures { result.now ≡ ended_word ended }
{
    match ended {
        Ended::Quit => "quit",
        Ended::End => "end",
        Ended::TooMuch => "toomuch",
        Ended::ReadFault => "readfault",
        Ended::WriteFault => "writefault",
    }
}
