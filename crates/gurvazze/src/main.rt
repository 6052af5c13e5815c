// The command program: commands on standard input, a line each, and their answers on standard output. It keeps a tool of numbers and one of
// a register, of which the last accepted set-up has one in force, the turn of a wheel for the next set-up, and a device. Every judgement is a
// library's; what this program adds are the answers `error=`, for lines that are no commands.
#![tactic(auto)]

mod answers;
mod calls;
mod covers;
mod devices;
mod lines;
mod numbers;
mod rules;
mod setups;
mod tools;
mod wheels;

use answers::{Fault, HELP};
use calls::{obey, read_call};
use command_line::{Command, read_command, word};
use devices::Kept;
use limits::WORD_LIMIT;
use lines::{Input, LINE_LIMIT, LIST_LIMIT, Line};
use setups::{Kind, TABLE_ROOM};
use std::io;
use std::io::Stdout;
use tools::{Tools, set_up_numbers, set_up_register};
use wheels::Turn;

// What is kept from line to line: the tools; the wheel's turn for the next set-up; the device, with its entries. Lists, and what a command
// gives back, go to memory that is kept too, so that it is not cleared for each command.
#[derive(Drop)]
struct Session {
    tools: Tools,
    turn: Turn,
    device: Option<Kept>,
    entries: [u8; TABLE_ROOM],
    list: [u8; LIST_LIMIT],
    // no shorter than a list
    out: [u8; WORD_LIMIT],
    values: [u32; LIST_LIMIT],
}

impl Session {
    // The values of a device that is kept now; before any set-up it is one of numbers.
    fn device_kind(&self) -> Kind {
        self.tools.in_force.unwrap_or(Kind::Numbers)
    }

    // A set-up was accepted: a device of the other kind is dropped.
    fn set_up_as(&mut self, kind: Kind) {
        if self.device_kind() != kind {
            self.device = None;
        }
        self.tools.in_force = Some(kind);
    }

    // A call of the tool in force.
    fn call(&mut self, stdout: Stdout, command: Command, line: &[u8]) -> Result<(), Fault> {
        let set_up = self.tools.set_up()?;
        let kind = Kind::of(set_up);
        let call = read_call(command, set_up, line, &mut self.list)?;
        match kind {
            Kind::Numbers => obey(stdout, &mut self.tools.numbers, call, &mut self.out),
            Kind::Register => obey(stdout, &mut self.tools.register, call, &mut self.values),
        }
    }

    // A command that needs a set-up.
    fn under_setup(&mut self, stdout: Stdout, command: Command, line: &[u8]) -> Result<(), Fault> {
        let set_up = self.tools.set_up()?;
        let device = self.device;
        match command {
            Command::Table => rules::table(stdout, set_up, line),
            Command::Dot => rules::dot(stdout, set_up, line),
            Command::Trial => {
                devices::trial(stdout, set_up, device, line, &self.entries, &mut self.out)
            }
            Command::Covers => covers::covers(stdout, set_up, line, &mut self.out),
            Command::Write => devices::write(stdout, set_up, device, line, &self.entries),
            _ => self.call(stdout, command, line),
        }
    }

    // The set-ups and the device: one that is wrong or refused leaves what was there.
    fn set_up_numbers(&mut self, line: &[u8]) -> Result<(), Fault> {
        self.tools.numbers = set_up_numbers(self.turn, line, &mut self.list)?;
        self.set_up_as(Kind::Numbers);
        Ok(())
    }

    fn set_up_register(&mut self, line: &[u8]) -> Result<(), Fault> {
        self.tools.register = set_up_register(self.turn, line)?;
        self.set_up_as(Kind::Register);
        Ok(())
    }

    fn keep_device(&mut self, line: &[u8]) -> Result<(), Fault> {
        let kind = self.device_kind();
        self.device = Some(Kept::read(kind, line, &mut self.entries)?);
        Ok(())
    }

    // A line is a command, unless it is empty or a comment.
    fn answer(&mut self, stdout: Stdout, line: &[u8]) -> Result<(), Fault> {
        let name = word(line, 0);
        if matches!(name.first(), None | Some(b'#')) {
            return Ok(());
        }
        match read_command(name).ok_or(Fault::Command)? {
            Command::Setup => self.set_up_numbers(line)?,
            Command::Register => self.set_up_register(line)?,
            Command::Wheel => self.turn = Turn::read(line)?,
            Command::Device => self.keep_device(line)?,
            Command::Help => return Ok(print!(stdout; "{HELP}")?),
            command => return self.under_setup(stdout, command, line),
        }
        println!(stdout; "ok")?;
        Ok(())
    }
}

fn main(rt: HostRuntime) -> io::Result<()> {
    let stdout = rt.stdout();
    let mut input = Input::new(rt.stdin());
    let mut buffer = [0u8; LINE_LIMIT];
    let mut session = Session {
        tools: Tools::new(),
        turn: Turn::FIRST,
        device: None,
        entries: [0; TABLE_ROOM],
        list: [0; LIST_LIMIT],
        out: [0; WORD_LIMIT],
        values: [0; LIST_LIMIT],
    };
    // nothing says that the input ends
    for _ in 0..u64::MAX {
        let Some(line) = input.read_line(&mut buffer)? else {
            return Ok(());
        };
        let answered = match line {
            Line::Whole(text) => session.answer(stdout, text),
            Line::Long => Err(Fault::Line),
        };
        match answered {
            Ok(()) => {}
            Err(Fault::Io(error)) => return Err(error),
            Err(fault) => println!(stdout; "{fault}")?,
        }
    }
    Ok(())
}
