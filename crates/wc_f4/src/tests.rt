use crate::{print_fact, read_facts, read_one};
use std::alloc::Global;
use std::test::Fail;
use wc_base::{Fault, Trouble};
use wc_model::{Image, Name, Table, Text};

/// An image without code that has the names `f`, at 0x8004 and once more elsewhere, `top` at 0xfffffffe, `op` inside
/// of it, and the Thumb function `ft`.
fn image(alloc: Global) -> Result<Image, Fail> {
    let bytes = Vec::from_array(alloc, *b"ftopf")?;
    let f = Name {
        offset: 0,
        length: 1,
        value: 0x8004,
        function: true,
    };
    let top = Name {
        offset: 1,
        length: 3,
        value: 0xffff_fffe,
        function: false,
    };
    let op = Name {
        offset: 2,
        length: 2,
        value: 0x8101,
        function: false,
    };
    let thumb = Name {
        offset: 0,
        length: 2,
        value: 0x8005,
        function: true,
    };
    let again = Name {
        offset: 4,
        length: 1,
        value: 0x9000,
        function: true,
    };
    Ok(Image {
        bytes: Text::new(bytes),
        ranges: Table::new(Vec::new(alloc)),
        names: Table::new(Vec::from_array(alloc, [f, top, op, thumb, again])?),
    })
}

/// Each text states one fact, which prints so.
#[test]
fn facts_print_in_their_one_form(rt: HostRuntime) -> Result<(), Fail> {
    let table = [
        ("loop 0x8004 9;", "loop 0x00008004 9;"),
        ("loop 32772 009 ;", "loop 0x00008004 9;"),
        ("loop 0xABcdEf01 0xFFFFFFFF;", "loop 0xabcdef01 4294967295;"),
        ("loop \"f\" ?;", "loop 0x00008004 ?;"),
        ("loop \"f\" + 4 9;", "loop 0x00008008 9;"),
        ("loop \"f\"-4 9;", "loop 0x00008000 9;"),
        ("loop \"top\" + 1 0;", "loop 0xffffffff 0;"),
        ("loop \"f\" - 0x8004 0;", "loop 0x00000000 0;"),
        ("loop 4294967295 4294967295;", "loop 0xffffffff 4294967295;"),
        (
            "multibranch 0x800c to 0x801c,0x8024;",
            "multibranch 0x0000800c to 0x0000801c, 0x00008024;",
        ),
        (
            "multicall \"f\" to \"f\" + 4 , \"f\";",
            "multicall 0x00008004 to 0x00008008, 0x00008004;",
        ),
        ("noreturn\"f\";", "noreturn 0x00008004;"),
        ("checksum \"a b\" 0x10;", "checksum \"a b\" 16;"),
        ("checksum \"\" 0;", "checksum \"\" 0;"),
        ("limit 2*[0x800c]+1<=3;", "limit 2 * [0x0000800c] + 1 <= 3;"),
        (
            "limit 1 * [\"f\"] <= [8] + 0 * [9] + 4;",
            "limit [0x00008004] <= [0x00000008] + 0 * [0x00000009] + 4;",
        ),
        ("loop 0x8014 9;", "loop 0x00008014 9;"),
        (
            "loop 0x8014 2 in 0x8004;",
            "loop 0x00008014 2 in 0x00008004;",
        ),
        (
            "loop 0x8014 20 in 0x8008;",
            "loop 0x00008014 20 in 0x00008008;",
        ),
        (
            "loop 0x8014 2 in 0x8000, 0x8004;",
            "loop 0x00008014 2 in 0x00008000, 0x00008004;",
        ),
        (
            "limit [0x8014 in 0x8004] <= 3;",
            "limit [0x00008014 in 0x00008004] <= 3;",
        ),
        (
            "loop\"f\"?in\"f\"+4,8;",
            "loop 0x00008004 ? in 0x00008008, 0x00000008;",
        ),
        (
            "limit 7 * [ 8 in 9,\"f\" ]+ [10]<=2*[ 11 in 12 ];",
            "limit 7 * [0x00000008 in 0x00000009, 0x00008004] + [0x0000000a] <= 2 * [0x0000000b in 0x0000000c];",
        ),
        (
            "// a loop\n /**/ loop /* in *the* middle */ 8 //\r\n 9/*/;*/;//",
            "loop 0x00000008 9;",
        ),
        ("loop 8 9; //", "loop 0x00000008 9;"),
    ];
    let image = image(rt.alloc())?;
    for (text, want) in table {
        let fact = read_one(rt.alloc(), text.as_bytes(), &image)?;
        let got = print_fact(rt.alloc(), &fact)?;
        assert_eq!(rt; got.as_slice(), want.as_bytes(), "{text}");
    }
    Ok(())
}

/// Each text has a wrong token of no name: its line is told.
#[test]
fn the_first_wrong_token_is_refused(rt: HostRuntime) -> Result<(), Fail> {
    let table = [
        ("loop\n", 2),
        ("loop \"f\n\" 9;", 1),
        ("\nloop \"f", 2),
        ("loop 8 9", 1),
        ("loop 8 9\n/*\n\n", 2),
        ("loop 8 9;\n/*/", 2),
        ("loop 8 9;\n/", 2),
        ("loop 0x8004 4294967296;", 1),
        ("loop\n0x100000000 9;", 2),
        ("loop 8\n0x;", 2),
        ("limit 1\n< 3;", 2),
        ("limit 1\n=< 3;", 2),
        ("Loop 8 9;", 1),
        ("loop 8 9;\nlOop", 2),
        ("\r\n\r\n\rloops 8 9;", 3),
        ("\0", 1),
        ("loop 0X8 9;", 1),
        ("lo/**/op 8 9;", 1),
        ("loop \"f\" -\n32773 9;", 2),
        ("loop \"top\" +\n2 9;", 2),
        ("loop 8 + 4 9;", 1),
        ("loop \"f\" + \"f\" 9;", 1),
        ("loop 8 \"nope\";", 1),
        ("loop 8 9\n; ;\nloop \"nope\" 9;", 2),
        ("multibranch 8\n9;", 2),
        ("multibranch 8 to\n;", 2),
        ("multicall 8 to 9,\n;", 2),
        ("checksum f 9;", 1),
        ("checksum \"f\" ?;", 1),
        ("limit [8 <= 3;", 1),
        ("limit 2 *\n8 <= 3;", 2),
        ("limit 1 +\n<= 3;", 2),
        ("limit 1 <= 2\n<= 3;", 2),
        ("to", 1),
        ("loop 0x8014 2 in;", 1),
        ("loop 8\nin 9;", 2),
        ("loop 8 2 in 9,\n;", 2),
        ("loop 8 2 in 9\nin 10;", 2),
        ("loop 8 2 in\n?;", 2),
        ("limit [8 in\n] <= 3;", 2),
        ("limit [8 in 9\n; ] <= 3;", 2),
        ("multicall 8 to 9\nin 10;", 2),
        ("noreturn 8\nin 9;", 2),
    ];
    let image = image(rt.alloc())?;
    for (text, line) in table {
        let want = Some(Trouble::Fault(Fault::BadFact(line)));
        let got = read_facts(rt.alloc(), text.as_bytes(), &image).err();
        assert_eq!(rt; got, want, "{text:?}");
    }
    Ok(())
}

/// A name in an address that isn't found is told, unless another token before it is wrong.
#[test]
fn names_that_are_not_found_are_refused(rt: HostRuntime) -> Result<(), Fail> {
    let table = [
        ("loop \"nope\" 3;", Fault::UnknownLabel(1)),
        ("loop\n\"\" 3;", Fault::UnknownLabel(2)),
        ("loop \"ft\" 3;", Fault::UnknownLabel(1)),
        ("limit [\"f\"] <= 2 * [\n\"ff\"];", Fault::UnknownLabel(2)),
        (
            "checksum \"nope\" 3;\nloop \"nope\"",
            Fault::UnknownLabel(2),
        ),
        ("loop ;\nloop \"nope\" 3;", Fault::BadFact(1)),
        ("loop \"nope\n\" 3;", Fault::BadFact(1)),
        ("loop \"nope\" /*", Fault::UnknownLabel(1)),
        ("loop 8 2 in 9,\n\"nope\"", Fault::UnknownLabel(2)),
        ("loop 8 2 in 9\n\"nope\"", Fault::BadFact(2)),
        ("noreturn \"f\";\nnoreturn \"ft\";", Fault::UnknownLabel(2)),
        ("noreturn \"f\";\nnoreturn \"o\";", Fault::UnknownLabel(2)),
        (
            "noreturn \"f\";\nnoreturn \"tops\";",
            Fault::UnknownLabel(2),
        ),
        ("noreturn \"f\";\nnoreturn \"z\";", Fault::UnknownLabel(2)),
    ];
    let image = image(rt.alloc())?;
    for (text, fault) in table {
        let got = read_facts(rt.alloc(), text.as_bytes(), &image).err();
        assert_eq!(rt; got, Some(Trouble::Fault(fault)), "{text:?}");
    }
    Ok(())
}

/// Each name is that of the first symbol that is called so, whatever was asked for before.
#[test]
fn all_names_of_a_text_are_found(rt: HostRuntime) -> Result<(), Fail> {
    let table = [
        (
            "noreturn \"f\"; noreturn \"f\";",
            "noreturn 0x00008004;noreturn 0x00008004;",
        ),
        (
            "noreturn \"f\"; noreturn \"op\";",
            "noreturn 0x00008004;noreturn 0x00008101;",
        ),
        (
            "limit [\"op\" in \"top\", \"f\"] <= 2 * [\"top\" - 1];",
            "limit [0x00008101 in 0xfffffffe, 0x00008004] <= 2 * [0xfffffffd];",
        ),
    ];
    let image = image(rt.alloc())?;
    for (text, want) in table {
        let mut got = Vec::new(rt.alloc());
        for fact in &read_facts(rt.alloc(), text.as_bytes(), &image)? {
            got.extend_from_slice(&print_fact(rt.alloc(), fact)?)?;
        }
        assert_eq!(rt; got.as_slice(), want.as_bytes(), "{text}");
    }
    Ok(())
}

#[test]
fn one_fact_is_read_alone(rt: HostRuntime) -> Result<(), Fail> {
    let table = [
        ("", 1),
        ("\n// none\n", 3),
        ("loop 8 9;\nloop 8 9;", 2),
        ("loop 8 9; ;", 1),
    ];
    let image = image(rt.alloc())?;
    for (text, line) in table {
        let got = read_one(rt.alloc(), text.as_bytes(), &image).err();
        assert_eq!(rt; got, Some(Trouble::Fault(Fault::BadFact(line))), "{text:?}");
    }
    let none = read_facts(rt.alloc(), b"/* none */ // none", &image)?;
    assert_eq!(rt; none.len(), 0);
    let text =
        b"loop \"f\" 9; multibranch 8 to 12; multicall 8 to 12; noreturn 8; checksum \"f\" 1; limit 1 <= 2;";
    let all = read_facts(rt.alloc(), text, &image)?;
    assert_eq!(rt; all.len(), 6);
    Ok(())
}
