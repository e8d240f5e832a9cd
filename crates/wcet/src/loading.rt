//! The files of a call, read and decoded one after the other.
ghost use Rattle.std.specs.Prelude.{◌≡◌, ℕ, List, option_map};
ghost use Rattle.wc_base.specs.declared.faults.FileWord.TheVariants.{Binary};
ghost use Rattle.wcet.specs.Files.{FactsFileSays, FactsSay, HardwareSays, Holds, ImageSays, TimingSays, Within};
ghost use Rattle.wcet.specs.Loading.{AreBytes, Decodes, LoadsFile, LoadsOptional, Loads, listed};
ghost use Rattle.wcet.specs.Words.{paths_in};

use crate::words::InputPaths;
use std::alloc::Global;
use wc_base::{Fault, FileWord, Trouble};
use wc_elf::read_image;
use wc_f4::read_facts;
use wc_hw::read_hardware;
use wc_io::{House, ReadWhole, read_file};
use wc_model::{Fact, Hardware, Image, default_hardware};

/// The longest file that is read, in bytes.
pub const MOST_BYTES: usize = 16_777_216;

/// What the files of a call say: the program, the timing of its processor, and what is known of its flow.
#[derive(Drop)]
pub struct Loaded {
    pub image: Image,
    pub hardware: Hardware,
    pub facts: Vec<Fact>,
}

/// Why a file wasn't loaded.
#[derive(Clone, Copy)]
pub enum Unloaded {
    ReadFault,
    Refused(Fault),
    Memory,
}

// The bytes of a file that isn't too long.
fn load_bytes<H: House>(
    alloc: Global,
    house: &mut H,
    path: &str,
    word: FileWord,
) -> Result<Vec<u8>, Unloaded>
    ensures file { LoadsFile (Holds (H.tells house.old) (H.file house.old) path.now) (Within word AreBytes) path.now (H.opened house.old) (H.opened house.new) result }
    ensures files { (p : List ℕ) → H.file house.new p ≡ H.file house.old p }
    ensures tells { H.tells house.new ≡ H.tells house.old }
{
    match read_file(alloc, house, path, MOST_BYTES) {
        Ok(bytes) => Ok(bytes),
        Err(ReadWhole::Long) => Err(Unloaded::Refused(Fault::LongFile(word))),
        Err(ReadWhole::Failed) => Err(Unloaded::ReadFault),
        Err(ReadWhole::Memory(_)) => Err(Unloaded::Memory),
    }
}

fn decode_image(alloc: Global, bytes: Vec<u8>) -> Result<Image, Unloaded>
    ensures { Decodes ImageSays bytes.items result }
{
    match read_image(alloc, bytes) {
        Ok(image) => Ok(image),
        Err(Trouble::Fault(fault)) => Err(Unloaded::Refused(fault)),
        Err(Trouble::Memory(_)) => Err(Unloaded::Memory),
    }
}

fn decode_hardware(alloc: Global, bytes: &[u8]) -> Result<Hardware, Unloaded>
    ensures { Decodes TimingSays bytes.now result }
{
    match read_hardware(alloc, bytes) {
        Ok(hardware) => Ok(hardware),
        Err(Trouble::Fault(fault)) => Err(Unloaded::Refused(fault)),
        Err(Trouble::Memory(_)) => Err(Unloaded::Memory),
    }
}

fn decode_facts(alloc: Global, bytes: &[u8], image: &Image) -> Result<Vec<Fact>, Unloaded>
    ensures { Decodes (FactsSay image.now) bytes.now (listed result) }
{
    match read_facts(alloc, bytes, image) {
        Ok(facts) => Ok(facts),
        Err(Trouble::Fault(fault)) => Err(Unloaded::Refused(fault)),
        Err(Trouble::Memory(_)) => Err(Unloaded::Memory),
    }
}

/// The image of a binary.
pub fn load_binary<H: House>(alloc: Global, house: &mut H, path: &str) -> Result<Image, Unloaded>
    ensures file { LoadsFile (Holds (H.tells house.old) (H.file house.old) path.now) (Within Binary ImageSays) path.now (H.opened house.old) (H.opened house.new) result }
    ensures files { (p : List ℕ) → H.file house.new p ≡ H.file house.old p }
    ensures tells { H.tells house.new ≡ H.tells house.old }
{
    match load_bytes(alloc, house, path, FileWord::Binary) {
        Ok(bytes) => decode_image(alloc, bytes),
        Err(unloaded) => Err(unloaded),
    }
}

/// The hardware that a file states, or the default one where no path is given.
pub fn load_hardware<H: House>(
    alloc: Global,
    house: &mut H,
    path: Option<&str>,
) -> Result<Hardware, Unloaded>
    ensures file { LoadsOptional (HardwareSays (Holds (H.tells house.old) (H.file house.old))) (option_map (λ p. p.now) path.entry) (H.opened house.old) (H.opened house.new) result }
    ensures files { (p : List ℕ) → H.file house.new p ≡ H.file house.old p }
    ensures tells { H.tells house.new ≡ H.tells house.old }
{
    let Some(path) = path else {
        return Ok(default_hardware());
    };
    match load_bytes(alloc, house, path, FileWord::Hardware) {
        Ok(bytes) => decode_hardware(alloc, bytes.as_slice()),
        Err(unloaded) => Err(unloaded),
    }
}

/// The facts that a file states, or none where no path is given. Names are those of the image.
pub fn load_facts<H: House>(
    alloc: Global,
    house: &mut H,
    path: Option<&str>,
    image: &Image,
) -> Result<Vec<Fact>, Unloaded>
    ensures file { LoadsOptional (FactsFileSays (Holds (H.tells house.old) (H.file house.old)) image.now) (option_map (λ p. p.now) path.entry) (H.opened house.old) (H.opened house.new) (listed result) }
    ensures files { (p : List ℕ) → H.file house.new p ≡ H.file house.old p }
    ensures tells { H.tells house.new ≡ H.tells house.old }
{
    let Some(path) = path else {
        return Ok(Vec::new(alloc));
    };
    match load_bytes(alloc, house, path, FileWord::Facts) {
        Ok(bytes) => decode_facts(alloc, bytes.as_slice(), image),
        Err(unloaded) => Err(unloaded),
    }
}

/// The binary, then the hardware and then the facts, or the first reason why there are none.
pub fn load<H: House>(alloc: Global, house: &mut H, paths: &InputPaths) -> Result<Loaded, Unloaded>
    ensures inputs { Loads (Holds (H.tells house.old) (H.file house.old)) (paths_in paths.now) (H.opened house.old) (H.opened house.new) result }
    ensures files { (p : List ℕ) → H.file house.new p ≡ H.file house.old p }
    ensures tells { H.tells house.new ≡ H.tells house.old }
{
    let image = match load_binary(alloc, house, paths.binary) {
        Ok(image) => image,
        Err(unloaded) => return Err(unloaded),
    };
    let hardware = match load_hardware(alloc, house, paths.hardware) {
        Ok(hardware) => hardware,
        Err(unloaded) => return Err(unloaded),
    };
    match load_facts(alloc, house, paths.facts, &image) {
        Ok(facts) => Ok(Loaded {
            image,
            hardware,
            facts,
        }),
        Err(unloaded) => Err(unloaded),
    }
}
