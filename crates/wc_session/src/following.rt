ghost use Rattle.std.specs.Prelude.{◌≡◌, None, Some};
ghost use Rattle.wc_core.specs.Answers.{LeavesFree};
ghost use Rattle.wc_session.specs.Alone.{IsAlone};
ghost use Rattle.wc_session.specs.Answered.{command_of};
ghost use Rattle.wc_session.specs.Parts.{EndsAtCommand, Follows, KeepsCore};

use crate::asks::ask;
use crate::commands::Command;
use crate::sessions::SESSION;
use std::alloc::{AllocError, Global};
use wc_base::Fault;
use wc_core::{Core, Edited, Work};
use wc_model::{Edit, Ended, Text};
use wc_report::Reply;

/// What a line is replied with, and how it ends the session where it does.
#[derive(Debug, Drop)]
pub struct Answer {
    pub reply: Option<Reply>,
    pub ended: Option<Ended>,
}

impl Answer {
    /// The session goes on after a reply.
    pub fn of(reply: Reply) -> Answer
        ensures { result ≡ record { reply = Some reply; ended = None } }
    {
        Answer {
            reply: Some(reply),
            ended: None,
        }
    }

    /// The session goes on or ends without a reply.
    fn silent(ended: Option<Ended>) -> Answer
        ensures { result ≡ record { reply = None; ended = ended } }
    {
        Answer { reply: None, ended }
    }
}

fn change<W: Work>(core: &mut Core<W>, edit: Edit) -> Reply
    requires { LeavesFree core.old.opening core.old.history 1 }
    ensures kept { KeepsCore W.chain 1 core.old core.new }
    ensures reply { Follows 1 core.old.history core.new.history (command_of edit) (Some result) }
{
    match core.edit(SESSION, edit) {
        Ok(Edited::Done(count)) => Reply::Edit(count),
        Ok(Edited::NoFact(_at)) => Reply::Refused(Fault::NoFact),
        Err(AllocError) => Reply::Memory,
    }
}

fn bound<W: Work>(alloc: Global, core: &mut Core<W>, name: Text) -> Reply
    requires free { LeavesFree core.old.opening core.old.history 1 }
    requires alone { IsAlone core.old.opening }
    ensures kept { KeepsCore W.chain 1 core.old core.new }
    ensures reply { Follows 1 core.old.history core.new.history (Command.Bound name) (Some result) }
{
    match ask(alloc, core, name.items()) {
        Ok(asked) => Reply::Bound(name, asked),
        Err(AllocError) => Reply::Memory,
    }
}

fn list<W: Work>(core: &mut Core<W>) -> Reply
    requires { LeavesFree core.old.opening core.old.history 1 }
    ensures kept { KeepsCore W.chain 1 core.old core.new }
    ensures reply { Follows 1 core.old.history core.new.history Command.List (Some result) }
{
    match core.list(SESSION) {
        Ok(listing) => Reply::Listing(listing),
        Err(AllocError) => Reply::Memory,
    }
}

/// Does what a command says.
pub fn follow<W: Work>(alloc: Global, core: &mut Core<W>, command: Command) -> Answer
    requires free { LeavesFree core.old.opening core.old.history 1 }
    requires alone { IsAlone core.old.opening }
    ensures kept { KeepsCore W.chain 1 core.old core.new }
    ensures reply { Follows 1 core.old.history core.new.history command result.reply }
    ensures end { EndsAtCommand command result.ended }
{
    match command {
        Command::Add(fact) => Answer::of(change(core, Edit::Add(fact))),
        Command::Drop(number) => Answer::of(change(core, Edit::Drop(number))),
        Command::Hardware(hardware) => Answer::of(change(core, Edit::Hardware(hardware))),
        Command::Bound(name) => Answer::of(bound(alloc, core, name)),
        Command::List => Answer::of(list(core)),
        Command::Quit => Answer::silent(Some(Ended::Quit)),
        Command::Blank => Answer::silent(None),
    }
}
