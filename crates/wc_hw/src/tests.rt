use crate::{print_hardware, read_hardware};
use std::alloc::Global;
use std::test::Fail;
use wc_base::{Fault, FieldWord, Trouble};
use wc_model::Hardware;

fn read(alloc: Global, text: &str) -> Result<Hardware, Trouble> {
    read_hardware(alloc, text.as_bytes())
}

const DEFAULT: &str =
    "{\"cycles\":{\"alu\":1,\"mul\":1,\"div\":1,\"load\":1,\"store\":1,\"multi\":1,\"branch\":1,\"system\":1,\"taken\":0,\"per_register\":0},\"icache\":null}";

const CACHED: &str =
    "{\"cycles\":{\"alu\":1,\"mul\":1,\"div\":1,\"load\":1,\"store\":1,\"multi\":1,\"branch\":1,\"system\":1,\"taken\":0,\"per_register\":0},\"icache\":{\"sets\":1,\"ways\":2,\"line\":16,\"hit\":0,\"miss\":10,\"start\":\"any\"}}";

#[test]
fn wrong_names_are_refused_in_their_order(rt: HostRuntime) {
    let table = [
        ("null", FieldWord::Root),
        ("[]", FieldWord::Root),
        ("{\"cycles\":{},\"other\":1}", FieldWord::Root),
        ("{\"cycles\":7}", FieldWord::Cycles),
        ("{\"cycles\":{\"alu\":1.5,\"other\":1}}", FieldWord::Cycles),
        ("{\"cycles\":{\"alu\":1.5}}", FieldWord::Alu),
        ("{\"cycles\":{\"mul\":1e2}}", FieldWord::Mul),
        ("{\"cycles\":{\"div\":1.0}}", FieldWord::Div),
        ("{\"cycles\":{\"load\":-0}}", FieldWord::Load),
        (
            "{\"cycles\":{\"store\":18446744073709551616}}",
            FieldWord::Store,
        ),
        ("{\"cycles\":{\"multi\":65536}}", FieldWord::Multi),
        ("{\"cycles\":{\"branch\":null}}", FieldWord::Branch),
        (
            "{\"cycles\":{\"taken\":true,\"system\":\"1\"}}",
            FieldWord::System,
        ),
        ("{\"icache\":7}", FieldWord::Icache),
        ("{\"icache\":{\"way\":1}}", FieldWord::Icache),
        ("{\"icache\":{}}", FieldWord::Sets),
        ("{\"icache\":{\"sets\":3}}", FieldWord::Sets),
        ("{\"icache\":{\"sets\":1024}}", FieldWord::Sets),
        ("{\"icache\":{\"sets\":512,\"ways\":9}}", FieldWord::Ways),
        (
            "{\"icache\":{\"sets\":1,\"ways\":8,\"line\":8}}",
            FieldWord::Line,
        ),
        (
            "{\"icache\":{\"sets\":1,\"ways\":8,\"line\":64}}",
            FieldWord::Hit,
        ),
        (
            "{\"icache\":{\"sets\":1,\"ways\":8,\"line\":64,\"hit\":5,\"miss\":4}}",
            FieldWord::Miss,
        ),
        (
            "{\"icache\":{\"sets\":1,\"ways\":8,\"line\":64,\"hit\":5,\"miss\":5,\"start\":\"Any\"}}",
            FieldWord::Start,
        ),
    ];
    for (text, word) in table {
        let got = read(rt.alloc(), text).err();
        assert_eq!(rt; got, Some(Trouble::Fault(Fault::BadField(word))), "{text}");
    }
}

#[test]
fn bytes_that_are_no_json_are_refused(rt: HostRuntime) -> Result<(), Fail> {
    for text in ["", "{", "{\"cycles\":{}", "{'cycles':{}}", "{} {}", "1e999"] {
        let got = read(rt.alloc(), text).err();
        assert_eq!(rt; got, Some(Trouble::Fault(Fault::BadJson)), "{text:?}");
    }
    let mut deep = Vec::new(rt.alloc());
    for bracket in [b'[', b']'] {
        for _ in 0..200 {
            deep.push(bracket)?;
        }
    }
    let got = read_hardware(rt.alloc(), &deep).err();
    assert_eq!(rt; got, Some(Trouble::Fault(Fault::BadJson)));
    let no_text = read_hardware(rt.alloc(), b"{\"\xff\":1}").err();
    assert_eq!(rt; no_text, Some(Trouble::Fault(Fault::BadJson)));
    Ok(())
}

#[test]
fn hardware_prints_as_it_was_read(rt: HostRuntime) -> Result<(), Fail> {
    let table = [
        ("{}", DEFAULT),
        ("{\"icache\":null,\"cycles\":{}}", DEFAULT),
        ("{\"cycles\":{\"alu\":7,\"alu\":1}}", DEFAULT),
        (DEFAULT, DEFAULT),
        (
            "{\"icache\":{\"sets\":1,\"ways\":2,\"line\":16,\"hit\":0,\"miss\":10,\"start\":\"any\"}}",
            CACHED,
        ),
        (CACHED, CACHED),
    ];
    for (text, want) in table {
        let hardware = read(rt.alloc(), text)?;
        let got = print_hardware(rt.alloc(), &hardware)?;
        assert_eq!(rt; got.as_slice(), want.as_bytes(), "{text}");
    }
    let most = read(rt.alloc(), "{\"cycles\":{\"per_register\":65535}}")?;
    assert_eq!(rt; most.cycles.per_register, 65535);
    Ok(())
}

fn read_parts(alloc: Global, parts: [&str; 3]) -> Result<Hardware, Trouble> {
    let mut text = Vec::new(alloc);
    for part in parts {
        text.extend_from_slice(part.as_bytes())?;
    }
    read_hardware(alloc, &text)
}

#[test]
fn the_greatest_number_of_a_field_is_65535(rt: HostRuntime) {
    let cycles = "{\"cycles\":{";
    let hits = "{\"icache\":{\"sets\":1,\"ways\":1,\"line\":16,\"start\":\"any\",";
    let fields = [
        (cycles, "\"alu\":", FieldWord::Alu),
        (cycles, "\"mul\":", FieldWord::Mul),
        (cycles, "\"div\":", FieldWord::Div),
        (cycles, "\"load\":", FieldWord::Load),
        (cycles, "\"store\":", FieldWord::Store),
        (cycles, "\"multi\":", FieldWord::Multi),
        (cycles, "\"branch\":", FieldWord::Branch),
        (cycles, "\"system\":", FieldWord::System),
        (cycles, "\"taken\":", FieldWord::Taken),
        (cycles, "\"per_register\":", FieldWord::PerRegister),
        (hits, "\"miss\":65535,\"hit\":", FieldWord::Hit),
        (hits, "\"hit\":0,\"miss\":", FieldWord::Miss),
    ];
    for (object, field, word) in fields {
        let most = read_parts(rt.alloc(), [object, field, "65535}}"]);
        assert_eq!(rt; most.is_ok(), true, "{field}");
        let more = read_parts(rt.alloc(), [object, field, "65536}}"]).err();
        assert_eq!(rt;
            more,
            Some(Trouble::Fault(Fault::BadField(word))),
            "{field}"
        );
    }
}

#[test]
fn a_size_of_the_cache_is_none_of_65535_and_65536(rt: HostRuntime) {
    let sizes = [
        ("{\"icache\":{\"sets\":", FieldWord::Sets),
        ("{\"icache\":{\"sets\":1,\"ways\":", FieldWord::Ways),
        (
            "{\"icache\":{\"sets\":1,\"ways\":1,\"line\":",
            FieldWord::Line,
        ),
    ];
    for (object, word) in sizes {
        for number in ["65535", "65536"] {
            let got = read_parts(rt.alloc(), [object, number, "}}"]).err();
            assert_eq!(rt;
                got,
                Some(Trouble::Fault(Fault::BadField(word))),
                "{number}"
            );
        }
    }
}
