use crate::insn;
use wc_model::{Class, Control, Insn};

fn next(class: Class) -> Option<Insn> {
    moves(class, 0)
}

fn moves(class: Class, moved: u8) -> Option<Insn> {
    Some(Insn {
        class,
        moved,
        control: Control::Next,
        always: true,
    })
}

fn turns(class: Class, moved: u8, control: Control, always: bool) -> Option<Insn> {
    Some(Insn {
        class,
        moved,
        control,
        always,
    })
}

#[test]
fn reads_each_row_of_the_table(rt: HostRuntime) {
    let unknown = None;
    let alu = next(Class::Alu);
    let mul = next(Class::Mul);
    let div = next(Class::Div);
    let load = next(Class::Load);
    let store = next(Class::Store);
    let system = next(Class::System);
    let rows = [
        // unconditional: barriers alone
        (0xF57FF04F, system), // DSB
        (0xF57FF05F, system), // DMB
        (0xF57FF06F, system), // ISB
        (0xF57FF040, system), // DSB of another domain
        (0xF57FF03F, unknown), // below DSB
        (0xF57FF07F, unknown), // above ISB
        (0xF57FF01F, unknown), // CLREX
        (0xF5D0F000, unknown), // PLD [R0]
        (0xFA000000, unknown), // BLX of a label
        (0xF12FFF1E, unknown), // BX LR, unconditional
        (0xF1A00000, unknown), // MOV R0, R0, unconditional
        // BX, BLX
        (0xE12FFF1E, turns(Class::Branch, 0, Control::Return, true)), // BX LR
        (0x012FFF1E, turns(Class::Branch, 0, Control::Return, false)), // BXEQ LR
        (
            0xE12FFF10,
            turns(Class::Branch, 0, Control::IndirectJump, true),
        ), // BX R0
        (
            0xE12FFF1F,
            turns(Class::Branch, 0, Control::IndirectJump, true),
        ), // BX PC
        (
            0xD12FFF13,
            turns(Class::Branch, 0, Control::IndirectJump, false),
        ), // BXLE R3
        (
            0xE12FFF33,
            turns(Class::Branch, 0, Control::IndirectCall, true),
        ), // BLX R3
        (
            0xE12FFF3E,
            turns(Class::Branch, 0, Control::IndirectCall, true),
        ), // BLX LR
        (
            0x112FFF33,
            turns(Class::Branch, 0, Control::IndirectCall, false),
        ), // BLXNE R3
        (0xE12FFF2E, unknown), // BXJ LR
        (0xE12FFE1E, unknown), // BX LR with a bit clear that should be one
        (0xE1200070, unknown), // BKPT
        // NOP
        (0xE320F000, alu), // NOP
        (0x0320F000, alu), // NOPEQ
        (0xE320F001, unknown), // YIELD
        (0xE3200000, unknown), // a hint with Rd 0
        (0xE328F000, unknown), // MSR CPSR_f, #0
        // MOVW, MOVT
        (0xE3010234, alu), // MOVW R0, #0x1234
        (0xE34F0FFF, alu), // MOVT R0, #0xFFFF
        (0x03000001, alu), // MOVWEQ R0, #1
        (0xE300F000, unknown), // MOVW PC, #0
        (0xE340F000, unknown), // MOVT PC, #0
        (0xE3600000, unknown), // MSR SPSR, #0
        // CLZ
        (0xE16F0F11, alu), // CLZ R0, R1
        (0xE16FFF11, unknown), // CLZ PC, R1
        (0xE16F0F31, unknown), // bits 11:4 are F3
        (0xE1600070, unknown), // SMC
        (0xE10F0000, unknown), // MRS R0, CPSR
        (0xE1000050, unknown), // QADD R0, R0, R0
        (0xE1000080, unknown), // SMLABB R0, R0, R0, R0
        // multiplications
        (0xE0000190, mul), // MUL R0, R0, R1
        (0xE0100190, mul), // MULS R0, R0, R1
        (0x00000190, mul), // MULEQ R0, R0, R1
        (0xE0203291, mul), // MLA R0, R1, R2, R3
        (0xE0303291, mul), // MLAS R0, R1, R2, R3
        (0xE0603291, mul), // MLS R0, R1, R2, R3
        (0xE0810392, mul), // UMULL R0, R1, R2, R3
        (0xE0A10392, mul), // UMLAL R0, R1, R2, R3
        (0xE0C10392, mul), // SMULL R0, R1, R2, R3
        (0xE0E10392, mul), // SMLAL R0, R1, R2, R3
        (0xE0F10392, mul), // SMLALS R0, R1, R2, R3
        (0xE020F291, mul), // MLA with Ra 15
        (0xE060F291, mul), // MLS with Ra 15
        (0xE0400090, unknown), // UMAAL
        (0xE0500090, unknown), // bits 23:20 are 5
        (0xE0700090, unknown), // bits 23:20 are 7
        (0xE00F0190, unknown), // MUL PC, R0, R1
        (0xE081F392, unknown), // UMULL with RdLo 15
        (0xE08F0392, unknown), // UMULL with RdHi 15
        (0xE1000090, unknown), // SWP R0, R0, [R0]
        (0xE1900F9F, unknown), // LDREX R0, [R0]
        // halfwords, signed bytes and doublewords
        (0xE1D010B0, load), // LDRH R1, [R0]
        (0xE1D010D0, load), // LDRSB R1, [R0]
        (0xE1D010F0, load), // LDRSH R1, [R0]
        (0xE01010B2, load), // LDRH R1, [R0], -R2
        (0xE19010B2, load), // LDRH R1, [R0, R2]
        (0xE1C010B0, store), // STRH R1, [R0]
        (0xE00010B0, store), // STRH R1, [R0], -R0
        (0xE1C020D0, load), // LDRD R2, R3, [R0]
        (0xE1C020F0, store), // STRD R2, R3, [R0]
        (0xE1DF10B0, load), // LDRH R1, [PC]
        (0xE0DF10B2, unknown), // LDRH R1, [PC], #2
        (0xE1FF10B0, unknown), // LDRH R1, [PC]!
        (0xE1CF10B0, store), // STRH R1, [PC]
        (0xE0CF10B2, unknown), // STRH R1, [PC], #2
        (0xE1D0F0B0, unknown), // LDRH PC, [R0]
        (0xE1D1E0D2, load), // LDRSB LR, [R1, #2]
        (0xE1D1F0D2, unknown), // LDRSB PC, [R1, #2]
        (0xE1C0F0B0, store), // STRH PC, [R0]
        (0xE1C0F0F0, store), // STRD with Rd 15
        (0xE1C0C0D0, load), // LDRD R12, SP, [R0]
        (0xE1C0D0D0, load), // LDRD with Rd 13
        (0xE1C0E0D0, unknown), // LDRD with Rd 14
        (0xE1C0F0D0, unknown), // LDRD with Rd 15
        // data processing
        (0xE0810002, alu), // ADD R0, R1, R2
        (0xE2810001, alu), // ADD R0, R1, #1
        (0xE1A00000, alu), // MOV R0, R0
        (0xE1A01112, alu), // LSL R1, R2, R1
        (0xE3A0000A, alu), // MOV R0, #10
        (0xE3E00000, alu), // MVN R0, #0
        (0x02500001, alu), // SUBSEQ R0, R0, #1
        (0xE350000A, alu), // CMP R0, #10
        (0xE1100001, alu), // TST R0, R1
        (0xE110F001, alu), // TST with Rd 15
        (0xE110F211, alu), // TST with Rd 15 and a shift by a register
        (0xE350F000, alu), // CMP with Rd 15
        (0xE1A0F00E, turns(Class::Alu, 0, Control::Return, true)), // MOV PC, LR
        (0x01A0F00E, turns(Class::Alu, 0, Control::Return, false)), // MOVEQ PC, LR
        (
            0xE1B0F00E,
            turns(Class::Alu, 0, Control::IndirectJump, true),
        ), // MOVS PC, LR
        (
            0xE1A0F000,
            turns(Class::Alu, 0, Control::IndirectJump, true),
        ), // MOV PC, R0
        (
            0xE08FF100,
            turns(Class::Alu, 0, Control::IndirectJump, true),
        ), // ADD PC, PC, R0, LSL #2
        (
            0xE3A0F010,
            turns(Class::Alu, 0, Control::IndirectJump, true),
        ), // MOV PC, #16
        (
            0x908FF100,
            turns(Class::Alu, 0, Control::IndirectJump, false),
        ), // ADDLS PC, PC, R0, LSL #2
        (0xE1A0F110, unknown), // MOV PC, R0, LSL R1
        // words and bytes
        (0xE5900000, load), // LDR R0, [R0]
        (0xE5800000, store), // STR R0, [R0]
        (0xE5D00000, load), // LDRB R0, [R0]
        (0xE5C00000, store), // STRB R0, [R0]
        (0xE7910002, load), // LDR R0, [R1, R2]
        (0xE7810002, store), // STR R0, [R1, R2]
        (0xE59F401C, load), // LDR R4, [PC, #28]
        (0xE49F0004, unknown), // LDR R0, [PC], #4
        (0xE5BF0004, unknown), // LDR R0, [PC, #4]!
        (0xE58F0000, store), // STR R0, [PC]
        (0xE48F0004, unknown), // STR R0, [PC], #4
        (0xE580F000, store), // STR PC, [R0]
        (0xE5C0F000, store), // STRB PC, [R0]
        (0xE5D0F000, unknown), // LDRB PC, [R0]
        (0xE49DF004, turns(Class::Load, 0, Control::Return, true)), // LDR PC, [SP], #4
        (0x049DF004, turns(Class::Load, 0, Control::Return, false)), // LDREQ PC, [SP], #4
        (
            0xE49DF008,
            turns(Class::Load, 0, Control::IndirectJump, true),
        ), // LDR PC, [SP], #8
        (
            0xE590F000,
            turns(Class::Load, 0, Control::IndirectJump, true),
        ), // LDR PC, [R0]
        (
            0x979FF100,
            turns(Class::Load, 0, Control::IndirectJump, false),
        ), // LDRLS PC, [PC, R0, LSL #2]
        (0xE7910012, unknown), // bit 4 set
        // divisions
        (0xE710F112, div), // SDIV R0, R2, R1
        (0xE730F112, div), // UDIV R0, R2, R1
        (0xE71FF112, unknown), // SDIV PC, R2, R1
        (0xE7100112, unknown), // bits 15:12 aren't F
        (0xE710F132, unknown), // bits 7:4 are 3
        (0xE720F112, unknown), // bits 27:20 are 72
        // extensions, bit fields, REV
        (0xE6AF0071, alu), // SXTB R0, R1
        (0xE6BF0071, alu), // SXTH R0, R1
        (0xE6EF0071, alu), // UXTB R0, R1
        (0xE6FF0C71, alu), // UXTH R0, R1, ROR #24
        (0xE6AFF071, unknown), // SXTB PC, R1
        (0xE6A00071, unknown), // SXTAB R0, R0, R1
        (0xE6CF0071, unknown), // UXTB16 R0, R1
        (0xE6AF0171, unknown), // bit 8 set
        (0xE7E00050, alu), // UBFX R0, R0, #0, #1
        (0xE7FF0050, alu), // UBFX R0, R0, #0, #32
        (0xE7A00050, alu), // SBFX R0, R0, #0, #1
        (0xE7C00010, alu), // BFI R0, R0, #0, #1
        (0xE7C0001F, alu), // BFC R0, #0, #1
        (0xE7E0F050, unknown), // UBFX PC, R0, #0, #1
        (0xE7C0F01F, unknown), // BFC PC, #0, #1
        (0xE7C00050, unknown), // bits 6:4 are 5
        (0xE7F000F0, unknown), // UDF
        (0xE6BF0F31, alu), // REV R0, R1
        (0xE6BFFF31, unknown), // REV PC, R1
        (0xE6BF0FB1, unknown), // REV16 R0, R1
        (0xE6FF0F31, unknown), // RBIT R0, R1
        (0xE6000010, unknown), // no media instruction
        // load and store multiple
        (0xE92D4010, moves(Class::Multi, 2)), // PUSH {R4, LR}
        (0xE8900001, moves(Class::Multi, 1)), // LDM R0, {R0}
        (0xE880FFFF, moves(Class::Multi, 16)), // STM R0, {R0-PC}
        (0xE89F0001, moves(Class::Multi, 1)), // LDM PC, {R0}
        (0xE8BD8000, turns(Class::Multi, 1, Control::Return, true)), // POP {PC}
        (0xE8BD8010, turns(Class::Multi, 2, Control::Return, true)), // POP {R4, PC}
        (0x08BD8010, turns(Class::Multi, 2, Control::Return, false)), // POPEQ {R4, PC}
        (0xE89BA800, turns(Class::Multi, 3, Control::Return, true)), // LDM R11, {R11, SP, PC}
        (
            0xE8908000,
            turns(Class::Multi, 1, Control::IndirectJump, true),
        ), // LDM R0, {PC}
        (
            0xE890FFFF,
            turns(Class::Multi, 16, Control::IndirectJump, true),
        ), // LDM R0, {R0-PC}
        (
            0xE8FD8000,
            turns(Class::Multi, 1, Control::IndirectJump, true),
        ), // LDM SP!, {PC}^
        (0xE89D0000, unknown), // LDM SP, {}
        (0xE8BF0001, unknown), // LDM PC!, {R0}
        (0xE8AF0001, unknown), // STM PC!, {R0}
        // supervisor call, coprocessors
        (0xEF000000, system), // SVC #0
        (0x0F00002A, system), // SVCEQ #42
        (0xEE070FBA, unknown), // MCR
        (0xEC000000, unknown), // STC
        (0xED900A00, unknown), // VLDR S0, [R0]
    ];
    for (word, want) in rows {
        assert_eq!(rt; insn(0x8000, word), want, "{word}");
    }
}

#[test]
fn finds_the_targets_of_branches(rt: HostRuntime) {
    let rows = [
        (0x8000, 0xEA000000, Control::Jump(0x8008), true), // B .+8
        (0x8000, 0xEAFFFFFE, Control::Jump(0x8000), true), // B .
        (0x8000, 0xEBFFFFFE, Control::Call(0x8000), true), // BL .
        (0x8000, 0x0A000001, Control::Jump(0x800C), false), // BEQ .+12
        (0x8008, 0x1AFFFFFD, Control::Jump(0x8004), false), // BNE .-4
        (0x8000, 0x1B000001, Control::Call(0x800C), false), // BLNE .+12
        (0x8000, 0xEA7FFFFF, Control::Jump(0x02008004), true), // the greatest distance
        (0x8000, 0xEB800000, Control::Call(0xFE008008), true), // the least one, past 0
        (0, 0xEAFFFFFD, Control::Jump(0xFFFF_FFFC), true), // B .-4 at 0
        (0xFFFF_FFFC, 0xEA000000, Control::Jump(4), true), // B .+8 at the last word
        (0xFFFF_FFFC, 0xEBFFFFFF, Control::Call(0), true), // BL .+4 at the last word
    ];
    for (at, word, control, always) in rows {
        assert_eq!(rt;
            insn(at, word),
            turns(Class::Branch, 0, control, always),
            "{word} at {at}"
        );
    }
}
