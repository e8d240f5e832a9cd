ghost use Rattle.std.specs.Prelude.{◌≡◌, Ok, IfOk};
ghost use Rattle.wc_io.specs.Writing.{WritesTo};
ghost use Rattle.wc_hw.specs.Reading.{ReadsAs};
ghost use Rattle.wc_hw.specs.HardwareText.{cache_text, cycles_text, hardware_text, icache_text, start_text};

use std::alloc::{AllocError, Global};
use wc_io::{Failed, MemorySink, Piece, Sink, write_pieces, write_whole};
use wc_model::{Cache, Cycles, Hardware, StartState};

fn write_cycles<K: Sink>(sink: &mut K, cycles: &Cycles) -> Result<(), Failed>
    ensures { WritesTo K.Sink sink.old sink.new result (cycles_text cycles.now) }
{
    write_pieces(
        sink,
        &[
            Piece::Bytes(b"{\"cycles\":{\"alu\":"),
            Piece::Decimal(cycles.alu as u128),
            Piece::Bytes(b",\"mul\":"),
            Piece::Decimal(cycles.mul as u128),
            Piece::Bytes(b",\"div\":"),
            Piece::Decimal(cycles.div as u128),
            Piece::Bytes(b",\"load\":"),
            Piece::Decimal(cycles.load as u128),
            Piece::Bytes(b",\"store\":"),
            Piece::Decimal(cycles.store as u128),
            Piece::Bytes(b",\"multi\":"),
            Piece::Decimal(cycles.multi as u128),
            Piece::Bytes(b",\"branch\":"),
            Piece::Decimal(cycles.branch as u128),
            Piece::Bytes(b",\"system\":"),
            Piece::Decimal(cycles.system as u128),
            Piece::Bytes(b",\"taken\":"),
            Piece::Decimal(cycles.taken as u128),
            Piece::Bytes(b",\"per_register\":"),
            Piece::Decimal(cycles.per_register as u128),
            Piece::Bytes(b"},\"icache\":"),
        ],
    )
}

fn start_text(start: StartState) -> &'static str
    ensures { result.now ≡ start_text start }
{
    match start {
        StartState::Empty => ",\"start\":\"empty\"}}",
        StartState::Any => ",\"start\":\"any\"}}",
    }
}

fn write_cache<K: Sink>(sink: &mut K, cache: &Cache, cycles: &Cycles) -> Result<(), Failed>
    ensures { WritesTo K.Sink sink.old sink.new result (cache_text cache.now cycles.now) }
{
    write_pieces(
        sink,
        &[
            Piece::Bytes(b"{\"sets\":"),
            Piece::Decimal(cache.sets as u128),
            Piece::Bytes(b",\"ways\":"),
            Piece::Decimal(cache.ways as u128),
            Piece::Bytes(b",\"line\":"),
            Piece::Decimal(cache.line as u128),
            Piece::Bytes(b",\"hit\":"),
            Piece::Decimal(cycles.hit as u128),
            Piece::Bytes(b",\"miss\":"),
            Piece::Decimal(cycles.miss as u128),
            Piece::Bytes(start_text(cache.start).as_bytes()),
        ],
    )
}

/// Appends the hardware as JSON, with all names and without blanks. After `Failed` a shorter prefix was appended.
pub fn write_hardware<K: Sink>(sink: &mut K, hardware: &Hardware) -> Result<(), Failed>
    ensures { WritesTo K.Sink sink.old sink.new result (hardware_text hardware.now) }
{
    match write_cycles(sink, &hardware.cycles) {
        Ok(()) => write_rest(sink, hardware),
        Err(Failed) => Err(Failed),
    }
}

fn write_rest<K: Sink>(sink: &mut K, hardware: &Hardware) -> Result<(), Failed>
    ensures { WritesTo K.Sink sink.old sink.new result (icache_text hardware.now.cycles hardware.now.cache) }
{
    match &hardware.cache {
        Some(cache) => write_cache(sink, cache, &hardware.cycles),
        None => write_whole(sink, b"null}"),
    }
}

// What is printed of a hardware states it.
fn states(hardware: Hardware)
    ensures { ReadsAs (hardware_text hardware) (Ok hardware) }
{}

/// The text that `write_hardware` appends, which `read_hardware` reads as this hardware.
pub fn print_hardware(alloc: Global, hardware: &Hardware) -> Result<Vec<u8>, AllocError>
    ensures text { IfOk result (λ text. text.items ≡ hardware_text hardware.now) }
    ensures read_back { IfOk result (λ text. ReadsAs text.items (Ok hardware.now)) }
{
    let mut sink = MemorySink::new(alloc);
    states(*hardware);
    match write_hardware(&mut sink, hardware) {
        Ok(()) => Ok(sink.held),
        Err(Failed) => Err(AllocError),
    }
}
