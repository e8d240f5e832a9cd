ghost use Rattle.std.specs.Prelude.{◌≡◌, ◌≤◌, ◌<◌, ◌-◌, ◌^◌, ℕ, Some, IfSome};
ghost use Rattle.wc_asm.specs.Canonical.{branch_word as branch_word_of, canonical, conditional as conditional_of, distance as distance_of, indirect_jump_word as indirect_jump_word_of, next_word as next_word_of, return_word as return_word_of, turning_word as turning_word_of};
ghost use Rattle.wc_asm.specs.Readings.{ReadsBack};
ghost use Rattle.wc_model.specs.Program.Instruction.{insn_of, next};
ghost use Rattle.wc_model.specs.declared.instructions.Class.TheVariants.{Branch};
ghost use Rattle.wc_model.specs.declared.instructions.Control.TheVariants.{Call, IndirectJump, Jump, Return};

use wc_base::Addr;
use wc_model::{Class, Control, Insn};

const ALWAYS_LESS_NOT_EQUAL: u32 = 0xD000_0000;

/// The number with so many low bits set.
fn low_ones(count: u8) -> u32
    requires { count ≤ 15 }
    ensures value { result ≡ 2 ^ count - 1 }
    ensures few { result < 2 ^ 15 }
{
    (1u32 << count) - 1
}

fn next_word(class: Class, moved: u8) -> Option<u32>
    ensures table { result ≡ next_word_of class moved }
    ensures read { (at : ℕ) → IfSome result (λ word. insn_of at word ≡ next class moved) }
{
    match class {
        Class::Multi if moved >= 1 && moved <= 15 => Some(0xE890_0000 + low_ones(moved)),
        Class::Multi | Class::Branch => None,
        _ if moved != 0 => None,
        Class::Alu => Some(0xE1A0_0000),
        Class::Mul => Some(0xE000_0190),
        Class::Div => Some(0xE710_F110),
        Class::Load => Some(0xE590_0000),
        Class::Store => Some(0xE580_0000),
        Class::System => Some(0xEF00_0000),
    }
}

fn return_word(class: Class, moved: u8) -> Option<u32>
    ensures table { result ≡ return_word_of class moved }
    ensures read { (at : ℕ) → IfSome result (ReadsBack at class moved Return) }
    ensures high { IfSome result (λ word. 0xE0000000 ≤ word) }
{
    match class {
        Class::Multi if moved >= 1 && moved <= 13 => Some(0xE8BD_8000 + low_ones(moved - 1)),
        Class::Alu if moved == 0 => Some(0xE1A0_F00E),
        Class::Load if moved == 0 => Some(0xE49D_F004),
        Class::Branch if moved == 0 => Some(0xE12F_FF1E),
        _ => None,
    }
}

fn indirect_jump_word(class: Class, moved: u8) -> Option<u32>
    ensures table { result ≡ indirect_jump_word_of class moved }
    ensures read { (at : ℕ) → IfSome result (ReadsBack at class moved IndirectJump) }
    ensures high { IfSome result (λ word. 0xE0000000 ≤ word) }
{
    match class {
        _ if moved != 0 => None,
        Class::Alu => Some(0xE1A0_F000),
        Class::Load => Some(0xE590_F000),
        Class::Branch => Some(0xE12F_FF10),
        _ => None,
    }
}

fn branch_word(opcode: u32, at: Addr, target: Addr) -> Option<u32>
    requires { opcode < 2 ^ 32 - 2 ^ 24 }
    ensures { result ≡ branch_word_of opcode (distance_of at target) }
{
    let distance = target.wrapping_sub(at).wrapping_sub(8);
    if distance % 4 != 0 || distance >= 1 << 25 && distance < 0xFE00_0000 {
        return None;
    }
    Some(opcode + distance / 4 % (1 << 24))
}

fn jump_word(at: Addr, target: Addr) -> Option<u32>
    ensures table { result ≡ branch_word_of 0xEA000000 (distance_of at target) }
    ensures read { IfSome result (ReadsBack at Branch 0 (Jump target)) }
    ensures high { IfSome result (λ word. 0xE0000000 ≤ word) }
{
    branch_word(0xEA00_0000, at, target)
}

fn call_word(at: Addr, target: Addr) -> Option<u32>
    ensures table { result ≡ branch_word_of 0xEB000000 (distance_of at target) }
    ensures read { IfSome result (ReadsBack at Branch 0 (Call target)) }
    ensures high { IfSome result (λ word. 0xE0000000 ≤ word) }
{
    branch_word(0xEB00_0000, at, target)
}

/// The word of class Branch with condition AL.
fn branch_class_word(at: Addr, control: Control) -> Option<u32>
    ensures table { result ≡ turning_word_of at Branch 0 control }
    ensures read { IfSome result (ReadsBack at Branch 0 control) }
    ensures high { IfSome result (λ word. 0xE0000000 ≤ word) }
{
    match control {
        Control::Next => None,
        Control::Jump(target) => jump_word(at, target),
        Control::Call(target) => call_word(at, target),
        Control::Return => return_word(Class::Branch, 0),
        Control::IndirectJump => indirect_jump_word(Class::Branch, 0),
        Control::IndirectCall => Some(0xE12F_FF30),
    }
}

/// The word with condition AL of an instruction that doesn't lead on.
fn turning_word(at: Addr, class: Class, moved: u8, control: Control) -> Option<u32>
    ensures table { result ≡ turning_word_of at class moved control }
    ensures read { IfSome result (ReadsBack at class moved control) }
    ensures high { IfSome result (λ word. 0xE0000000 ≤ word) }
{
    match class {
        Class::Branch if moved == 0 => branch_class_word(at, control),
        Class::Branch => None,
        _ => match control {
            Control::Return => return_word(class, moved),
            Control::IndirectJump => indirect_jump_word(class, moved),
            _ => None,
        },
    }
}

/// The same word with condition NE in place of AL.
fn conditional(word: Option<u32>) -> Option<u32>
    requires { IfSome word (λ w. 0xE0000000 ≤ w) }
    ensures { result ≡ conditional_of word }
{
    match word {
        Some(word) => Some(word - ALWAYS_LESS_NOT_EQUAL),
        None => None,
    }
}

/// The canonical word of the instruction at the address; nothing where it has none.
pub fn word_of(at: Addr, insn: &Insn) -> Option<u32>
    ensures table { result ≡ canonical at insn.now }
    ensures read { IfSome result (λ word. insn_of at word ≡ Some insn.now) }
{
    match insn.control {
        Control::Next if insn.always => next_word(insn.class, insn.moved),
        Control::Next => None,
        control if insn.always => turning_word(at, insn.class, insn.moved, control),
        control => conditional(turning_word(at, insn.class, insn.moved, control)),
    }
}
