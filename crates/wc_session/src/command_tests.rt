use crate::{Command, read_command};
use std::alloc::Global;
use std::test::Fail;
use wc_base::{Fault, Trouble};
use wc_model::{Fact, Image, Name, Table};

// An image without code that has the name `f`.
fn image(alloc: Global) -> Result<Image, Fail> {
    let f = Name {
        offset: 0,
        length: 1,
        value: 0x8000,
        function: true,
    };
    Ok(Image {
        bytes: Table::new(Vec::from_array(alloc, *b"f")?),
        ranges: Table::new(Vec::new(alloc)),
        names: Table::new(Vec::from_array(alloc, [f])?),
    })
}

fn word_of(command: &Command) -> &'static str {
    match command {
        Command::Add(_) => "add",
        Command::Drop(_) => "drop",
        Command::Hardware(_) => "hardware",
        Command::Bound(_) => "bound",
        Command::List => "list",
        Command::Quit => "quit",
        Command::Blank => "blank",
    }
}

#[test]
fn a_command_is_read_from_its_line(rt: HostRuntime) -> Result<(), Fail> {
    let image = image(rt.alloc())?;
    let table = [
        ("", "blank"),
        (" \t ", "blank"),
        ("quit", "quit"),
        ("list", "list"),
        ("bound f", "bound"),
        ("hardware {}", "hardware"),
        ("add checksum \"a\" 1;", "add"),
        ("drop 02", "drop"),
    ];
    for (line, word) in table {
        let command = read_command(rt.alloc(), line.as_bytes(), &image)?;
        assert_eq!(rt; word_of(&command), word, "{line:?}");
    }
    Ok(())
}

#[test]
fn a_name_in_a_fact_is_that_of_the_image(rt: HostRuntime) -> Result<(), Fail> {
    let image = image(rt.alloc())?;
    let known = match read_command(rt.alloc(), b"add noreturn \"f\";", &image)? {
        Command::Add(Fact::Noreturn { at }) => Some(at),
        _ => None,
    };
    assert_eq!(rt; known, Some(0x8000));
    let unknown = match read_command(rt.alloc(), b"add noreturn \"g\";", &image) {
        Err(Trouble::Fault(fault)) => Some(fault),
        _ => None,
    };
    assert_eq!(rt; unknown, Some(Fault::UnknownLabel(1)));
    Ok(())
}
