ghost use Rattle.std.specs.Prelude.{◌≡◌, ◌≢◌, ◌==◌, ◌≤◌, ◌*◌, ◌||◌, ◌⊎◌, if◌then◌else◌, None, true};
ghost use Rattle.std.specs.Option.{IfSome};
ghost use Rattle.wc_a32.specs.Groups.{extension_rows, immediate_rows, media_rows, register_rows};
ghost use Rattle.wc_model.specs.Program.Instruction.{IsSound, barrier as barrier_of, bit, branch as branch_of, branch_target as branch_target_of, data_processing as data_processing_of, extra_transfer as extra_transfer_of, field as field_of, first_row, insn_of, is_extend, is_multiply_operation as is_multiply_operation_of, is_multiply_to_pc, is_reverse, multiple as multiple_of, next as next_of, transfer as transfer_of, turns as turns_of, unless};
ghost use Rattle.wc_model.specs.declared.instructions.Class.TheVariants.{Mul, Multi};
ghost use Rattle.wc_model.specs.declared.instructions.Control.TheVariants.{Next};

use crate::fields::{base, destination, field, is_set};
use wc_base::Addr;
use wc_model::{Class, Control, Insn};

const STACK_POINTER: u32 = 13;

const FRAME_POINTER: u32 = 11;

const LINK_REGISTER: u32 = 14;

const PROGRAM_COUNTER: u32 = 15;

fn next(class: Class, moved: u8) -> Option<Insn>
    ensures { result ≡ next_of class moved }
{
    Some(Insn {
        class,
        moved,
        control: Control::Next,
        always: true,
    })
}

fn turns(word: u32, class: Class, moved: u8, control: Control) -> Option<Insn>
    ensures { result ≡ turns_of word class moved control }
{
    Some(Insn {
        class,
        moved,
        control,
        always: field(word, 31, 28) == 14,
    })
}

fn barrier(word: u32) -> Option<Insn>
    ensures table { result ≡ barrier_of word }
    ensures sound { IfSome result IsSound }
{
    match field(word, 31, 4) {
        0xF57FF04 | 0xF57FF05 | 0xF57FF06 => next(Class::System, 0),
        _ => None,
    }
}

fn extra_transfer(word: u32) -> Option<Insn>
    ensures table { result ≡ extra_transfer_of word }
    ensures sound { IfSome result IsSound }
{
    let written_back = !is_set(word, 24) || is_set(word, 21);
    if written_back && base(word) == PROGRAM_COUNTER {
        return None;
    }
    let to = destination(word);
    if is_set(word, 20) {
        return if to == PROGRAM_COUNTER {
            None
        } else {
            next(Class::Load, 0)
        };
    }
    if field(word, 6, 5) != 2 {
        return next(Class::Store, 0);
    }
    if to >= LINK_REGISTER {
        None
    } else {
        next(Class::Load, 0)
    }
}

fn data_processing(word: u32) -> Option<Insn>
    ensures table { result ≡ data_processing_of word }
    ensures sound { IfSome result IsSound }
{
    if field(word, 24, 23) == 2 || destination(word) != PROGRAM_COUNTER {
        return next(Class::Alu, 0);
    }
    if field(word, 27, 0) == 0x1A0F00E {
        return turns(word, Class::Alu, 0, Control::Return);
    }
    if !is_set(word, 25) && is_set(word, 4) {
        return None;
    }
    turns(word, Class::Alu, 0, Control::IndirectJump)
}

fn transfer(word: u32) -> Option<Insn>
    ensures table { result ≡ transfer_of word }
    ensures sound { IfSome result IsSound }
{
    let written_back = !is_set(word, 24) || is_set(word, 21);
    if written_back && base(word) == PROGRAM_COUNTER {
        return None;
    }
    if !is_set(word, 20) {
        return next(Class::Store, 0);
    }
    if destination(word) != PROGRAM_COUNTER {
        return next(Class::Load, 0);
    }
    if is_set(word, 22) {
        return None;
    }
    let control = if field(word, 27, 0) == 0x49DF004 {
        Control::Return
    } else {
        Control::IndirectJump
    };
    turns(word, Class::Load, 0, control)
}

fn multiple(word: u32) -> Option<Insn>
    ensures table { result ≡ multiple_of word }
    ensures sound { IfSome result IsSound }
{
    let list = field(word, 15, 0);
    let from = base(word);
    if list == 0 || is_set(word, 21) && from == PROGRAM_COUNTER {
        return None;
    }
    let moved = list.count_ones() as u8;
    if !is_set(word, 20) || !is_set(word, 15) {
        return next(Class::Multi, moved);
    }
    let is_frame = from == STACK_POINTER || from == FRAME_POINTER;
    let control = if is_frame && !is_set(word, 22) {
        Control::Return
    } else {
        Control::IndirectJump
    };
    turns(word, Class::Multi, moved, control)
}

fn branch_target(at: Addr, word: u32) -> Addr
    ensures { result ≡ branch_target_of at word }
{
    let forward = at.wrapping_add(8).wrapping_add(field(word, 23, 0) << 2);
    if is_set(word, 23) {
        forward.wrapping_sub(0x0400_0000)
    } else {
        forward
    }
}

fn branch(at: Addr, word: u32) -> Option<Insn>
    ensures table { result ≡ branch_of at word }
    ensures sound { IfSome result IsSound }
{
    let target = branch_target(at, word);
    let control = if is_set(word, 24) {
        Control::Call(target)
    } else {
        Control::Jump(target)
    };
    turns(word, Class::Branch, 0, control)
}

/// The instruction of the class, unless a field names a register that it can't use.
fn known(is_known: bool, class: Class) -> Option<Insn>
    ensures table { result ≡ (if is_known then next_of class 0 else None) }
    ensures sound { IfSome result IsSound }
{
    if is_known { next(class, 0) } else { None }
}

fn multiply(word: u32) -> Option<Insn>
    ensures table { result ≡ unless (is_multiply_to_pc word) (next_of Mul 0) }
    ensures sound { IfSome result IsSound }
{
    let is_long = field(word, 23, 20) >= 8;
    known(
        base(word) != PROGRAM_COUNTER && !(is_long && destination(word) == PROGRAM_COUNTER),
        Class::Mul,
    )
}

fn is_multiply_operation(operation: u32) -> bool
    ensures { result ≡ is_multiply_operation_of operation }
{
    operation <= 3 || operation == 6 || operation >= 8
}

/// Words with bits 27:25 = 000 and bits 7 and 4 set.
fn extension_space(word: u32) -> Option<Insn>
    requires group { field_of word 27 25 ≡ 0 }
    requires seven { bit word 7 ≡ 1 }
    requires four { bit word 4 ≡ 1 }
    ensures table { result ≡ first_row (extension_rows word) }
    ensures sound { IfSome result IsSound }
{
    if field(word, 6, 5) != 0 {
        return extra_transfer(word);
    }
    if !is_set(word, 24) && is_multiply_operation(field(word, 23, 20)) {
        return multiply(word);
    }
    None
}

/// Words with bits 27:25 = 000 and bit 7 or bit 4 clear.
fn register_form(word: u32) -> Option<Insn>
    requires group { field_of word 27 25 ≡ 0 }
    requires plain { bit word 7 * bit word 4 ≡ 0 }
    ensures table { result ≡ first_row (register_rows word) }
    ensures sound { IfSome result IsSound }
{
    if field(word, 24, 23) != 2 || is_set(word, 20) {
        return data_processing(word);
    }
    match field(word, 22, 4) {
        0x2FFF1 => {
            let returns = field(word, 3, 0) == LINK_REGISTER;
            turns(
                word,
                Class::Branch,
                0,
                if returns {
                    Control::Return
                } else {
                    Control::IndirectJump
                },
            )
        }
        0x2FFF3 => turns(word, Class::Branch, 0, Control::IndirectCall),
        _ => known(
            field(word, 22, 16) == 0x6F
                && field(word, 11, 4) == 0xF1
                && destination(word) != PROGRAM_COUNTER,
            Class::Alu,
        ),
    }
}

/// Words with bits 27:25 = 001.
fn immediate_form(word: u32) -> Option<Insn>
    requires { field_of word 27 25 ≡ 1 }
    ensures table { result ≡ first_row (immediate_rows word) }
    ensures sound { IfSome result IsSound }
{
    if field(word, 24, 23) != 2 || is_set(word, 20) {
        return data_processing(word);
    }
    if !is_set(word, 21) {
        return known(destination(word) != PROGRAM_COUNTER, Class::Alu);
    }
    known(field(word, 22, 0) == 0x20F000, Class::Alu)
}

/// SXTB, SXTH, UXTB, UXTH, or REV.
fn is_extend_or_reverse(word: u32) -> bool
    requires { field_of word 27 22 ≡ 0x1A ⊎ field_of word 27 22 ≡ 0x1B }
    ensures { result ≡ (is_extend word || is_reverse word) }
{
    if field(word, 19, 16) != 15 {
        return false;
    }
    let is_extend = is_set(word, 21) && field(word, 9, 4) == 7;
    is_extend || field(word, 22, 20) == 3 && field(word, 11, 4) == 0xF3
}

/// Words with bits 27:25 = 011 and bit 4 set.
fn media(word: u32) -> Option<Insn>
    ensures table { result ≡ first_row (media_rows word) }
    ensures sound { IfSome result IsSound }
{
    let to = destination(word);
    match field(word, 27, 20) {
        0x71 | 0x73 => known(
            to == 15 && field(word, 7, 4) == 1 && base(word) != PROGRAM_COUNTER,
            Class::Div,
        ),
        0x6A | 0x6B | 0x6E | 0x6F => known(
            is_extend_or_reverse(word) && to != PROGRAM_COUNTER,
            Class::Alu,
        ),
        0x7A | 0x7B | 0x7E | 0x7F => known(
            field(word, 6, 4) == 5 && to != PROGRAM_COUNTER,
            Class::Alu,
        ),
        0x7C | 0x7D => known(field(word, 6, 4) == 1 && to != PROGRAM_COUNTER, Class::Alu),
        _ => None,
    }
}

/// What the word at the address does; nothing where the table of instructions doesn't know it.
/// After chapter A5 of the ARM Architecture Reference Manual, ARMv7-A.
pub fn insn(at: Addr, word: u32) -> Option<Insn>
    ensures table { result ≡ insn_of at word }
    ensures sound { IfSome result IsSound }
{
    if field(word, 31, 28) == 15 {
        return barrier(word);
    }
    match field(word, 27, 25) {
        0 if is_set(word, 7) && is_set(word, 4) => extension_space(word),
        0 => register_form(word),
        1 => immediate_form(word),
        2 => transfer(word),
        3 if !is_set(word, 4) => transfer(word),
        3 => media(word),
        4 => multiple(word),
        5 => branch(at, word),
        7 if is_set(word, 24) => next(Class::System, 0),
        _ => None,
    }
}
