ghost use Rattle.std.specs.Prelude.{◌≡◌, None, Some};
ghost use Rattle.wc_flight.specs.Calls.{IsReady};
ghost use Rattle.wc_session.specs.Answered.{command_of};
ghost use Rattle.wc_session.specs.Parts.{EndsAtCommand};
ghost use Rattle.wc_session_next.specs.Parts.{Follows, KeepsPass};

use std::alloc::{AllocError, Global};
use std::sync::Wait;
use wc_base::Fault;
use wc_core::{Edited, Work};
use wc_flight::{Named, Workspace};
use wc_model::{Edit, Ended, Text};
use wc_pass::Pass;
use wc_report::Reply;
use wc_session::Command;

/// What a line is replied with, and how it ends the session where it does.
#[derive(Debug, Drop)]
pub struct Answer {
    pub reply: Option<Reply>,
    pub ended: Option<Ended>,
}

impl Answer {
    /// The session goes on after a reply.
    pub fn of(reply: Reply) -> Answer
        ensures { result ≡ record { reply = Some reply; ended = None } }
    {
        Answer {
            reply: Some(reply),
            ended: None,
        }
    }

    /// The session goes on or ends without a reply.
    fn silent(ended: Option<Ended>) -> Answer
        ensures { result ≡ record { reply = None; ended = ended } }
    {
        Answer { reply: None, ended }
    }
}

fn change<R: Wait, N: Named, W: Work + Send>(
    rt: &R,
    workspace: &Workspace<N, W>,
    pass: &mut Pass,
    edit: Edit,
) -> Reply
    requires { IsReady N.desk N.opening pass.old }
    ensures kept { KeepsPass W.chain N.desk N.opening pass.old pass.new }
    ensures reply { Follows pass.old pass.new (command_of edit) (Some result) }
{
    match workspace.edit(rt, pass, edit) {
        Ok(Edited::Done(count)) => Reply::Edit(count),
        Ok(Edited::NoFact(_at)) => Reply::Refused(Fault::NoFact),
        Err(AllocError) => Reply::Memory,
    }
}

fn bound<R: Wait, N: Named, W: Work + Send>(
    rt: &R,
    alloc: Global,
    workspace: &Workspace<N, W>,
    pass: &mut Pass,
    name: Text,
) -> Reply
    requires { IsReady N.desk N.opening pass.old }
    ensures kept { KeepsPass W.chain N.desk N.opening pass.old pass.new }
    ensures reply { Follows pass.old pass.new (Command.Bound name) (Some result) }
{
    match workspace.ask(rt, alloc, pass, name.items()) {
        Ok(asked) => Reply::Bound(name, asked),
        Err(AllocError) => Reply::Memory,
    }
}

fn list<R: Wait, N: Named, W: Work + Send>(
    rt: &R,
    workspace: &Workspace<N, W>,
    pass: &mut Pass,
) -> Reply
    requires { IsReady N.desk N.opening pass.old }
    ensures kept { KeepsPass W.chain N.desk N.opening pass.old pass.new }
    ensures reply { Follows pass.old pass.new Command.List (Some result) }
{
    match workspace.list(rt, pass) {
        Ok(listing) => Reply::Listing(listing),
        Err(AllocError) => Reply::Memory,
    }
}

/// Does what a command says.
pub fn follow<R: Wait, N: Named, W: Work + Send>(
    rt: &R,
    alloc: Global,
    workspace: &Workspace<N, W>,
    pass: &mut Pass,
    command: Command,
) -> Answer
    requires { IsReady N.desk N.opening pass.old }
    ensures kept { KeepsPass W.chain N.desk N.opening pass.old pass.new }
    ensures reply { Follows pass.old pass.new command result.reply }
    ensures end { EndsAtCommand command result.ended }
{
    match command {
        Command::Add(fact) => Answer::of(change(rt, workspace, pass, Edit::Add(fact))),
        Command::Drop(number) => Answer::of(change(rt, workspace, pass, Edit::Drop(number))),
        Command::Hardware(hardware) => {
            Answer::of(change(rt, workspace, pass, Edit::Hardware(hardware)))
        }
        Command::Bound(name) => Answer::of(bound(rt, alloc, workspace, pass, name)),
        Command::List => Answer::of(list(rt, workspace, pass)),
        Command::Quit => Answer::silent(Some(Ended::Quit)),
        Command::Blank => Answer::silent(None),
    }
}
