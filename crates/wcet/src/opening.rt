//! The script and the replies' sink of a session, opened and given back.
ghost use Rattle.std.specs.Prelude.{◌≡◌, ◌≢◌, ℕ, ◌+◌, ◌-◌, List, [], Some, length, true, false, IfOk, OnOk, OnErr, IfSome, IsSome, IsTrue};
ghost use Rattle.wc_io.specs.Rows.{IsRowOf, marked, path_at};
ghost use Rattle.wc_io.specs.Telling.{TellsFile};
ghost use Rattle.wcet.specs.Opening.{OpensBoth};

use wc_io::{House, HouseError};

/// A session's script, and the sink of its replies.
#[derive(Drop)]
pub struct Opened<S: Drop, K: Drop> {
    pub source: S,
    pub sink: K,
}

/// Why a session wasn't opened.
#[derive(Clone, Copy, Debug, PartialEq, Eq)]
pub enum Unopened {
    ReadFault,
    WriteFault,
    Memory,
}

/// Opens the script and then the sink. Where the sink isn't opened the script is given back.
pub fn open<H: House>(
    house: &mut H,
    input: &str,
    output: &str,
) -> Result<Opened<H::Source, H::Sink>, Unopened>
    ensures rows { OpensBoth input.now output.now (H.opened house.old) (H.opened house.new) result }
    ensures source { IfOk result (λ o. (H.Source.place o.source ≡ length (H.opened house.old) + 1) × (H.Source.faults o.source ≡ 0)) }
    ensures sink { IfOk result (λ o. (H.Sink.place o.sink ≡ length (H.opened house.old) + 2) × (H.Sink.faults o.sink ≡ 0)) }
    ensures there { OnOk result (IsTrue (H.tells house.old) → IsSome (H.file house.old input.now)) }
    ensures script { IfOk result (λ o. IfSome (H.file house.old input.now) (λ bytes. H.Source.left o.source ≡ Some bytes)) }
    ensures held { IfOk result (λ o. TellsFile (H.tells house.old) (H.file house.old output.now) → H.Sink.held o.sink ≡ Some []) }
    ensures emptied { OnOk result (TellsFile (H.tells house.old) (H.file house.old output.now) → H.file house.new output.now ≡ Some []) }
    ensures kept { OnErr result ((p : List ℕ) → H.file house.new p ≡ H.file house.old p) }
    ensures others { (p : List ℕ) → p ≢ output.now → H.file house.new p ≡ H.file house.old p }
    ensures tells { H.tells house.new ≡ H.tells house.old }
{
    let source = match house.source(input) {
        Ok(source) => source,
        Err(HouseError::Failed) => return Err(Unopened::ReadFault),
        Err(HouseError::Memory(_)) => return Err(Unopened::Memory),
    };
    match house.sink(output) {
        Ok(sink) => Ok(Opened { source, sink }),
        Err(error) => {
            house.return_source(source);
            match error {
                HouseError::Failed => Err(Unopened::WriteFault),
                HouseError::Memory(_) => Err(Unopened::Memory),
            }
        }
    }
}

/// Gives both back. What the sink holds is then its path's file.
pub fn give_back<H: House>(house: &mut H, source: H::Source, sink: H::Sink)
    requires source { IsRowOf (H.Source.place source) false (H.opened house.old) }
    requires sink { IsRowOf (H.Sink.place sink) true (H.opened house.old) }
    ensures rows { H.opened house.new ≡ marked (H.Sink.place sink - 1) (H.Sink.faults sink) (marked (H.Source.place source - 1) (H.Source.faults source) (H.opened house.old)) }
    ensures file { IfSome (H.file house.old (path_at (H.Sink.place sink - 1) (H.opened house.old)))
        (λ _. IfSome (H.Sink.held sink) (λ bytes. H.file house.new (path_at (H.Sink.place sink - 1) (H.opened house.old)) ≡ Some bytes)) }
    ensures others { (p : List ℕ) → p ≢ path_at (H.Sink.place sink - 1) (H.opened house.old) → H.file house.new p ≡ H.file house.old p }
    ensures tells { H.tells house.new ≡ H.tells house.old }
{
    house.return_source(source);
    house.return_sink(sink);
}
