// The calls of a reader.
ghost use Rattle.std.specs.Prelude.{◌≡◌, ◌<◌, true};
ghost use Rattle.record.specs.HandsOut.{HandsOut};
ghost use Rattle.record.specs.Reader.{step, step_from, advanced, at_start, from_module, from_net};
ghost use Rattle.record.specs.declared.reader.State.TheVariants.{Head as AtHead, Supplies as AtSupplies, Module as AtModule, Net as AtNet};
ghost use Rattle.record.specs.Stands.{announced};

use super::{Block, Kind, Reader, Stand, State};
use crate::cursor::Cursor;
use crate::head::Head;
use faults::RecordFault;

fn net_state(head: Head, i: u32) -> State
    ensures value { result ≡ from_net head i }
    ensures sound { announced head result ≡ true }
{
    if i < head.nets {
        State::Net(i)
    } else {
        State::End
    }
}

fn module_state(head: Head, m: u32) -> State
    ensures value { result ≡ from_module head m }
    ensures sound { announced head result ≡ true }
{
    if m < head.modules {
        State::Module(m)
    } else {
        net_state(head, 0)
    }
}

impl<'a> Reader<'a> {
    pub fn new(bytes: &'a [u8]) -> Reader<'a>
        ensures stand { result.stand ≡ at_start }
        ensures bytes { result.bytes ≡ bytes.entry }
        ensures hands_out { (p : Block) → HandsOut bytes.now p }
    {
        Reader {
            bytes,
            stand: Stand {
                state: State::Head,
                at: 0,
                head: Head::EMPTY,
                supplies: 0,
            },
        }
    }

    // The next block, into the place that the caller lends.
    pub fn next(&mut self, place: &mut Block) -> Result<Kind, RecordFault>
        ensures answer { result ≡ (step self.old.bytes.now self.old.stand place.old).answer }
        ensures block { place.new ≡ (step self.old.bytes.now self.old.stand place.old).block }
        ensures stand { self.new.stand ≡ (step self.old.bytes.now self.old.stand place.old).stand }
        ensures bytes { self.new.bytes ≡ self.old.bytes }
    {
        let answer = self.advance(place);
        if let Err(fault) = answer {
            self.stand.state = State::Failed(fault);
        }
        answer
    }

    // What the reader stands at and what is left to read decide what comes.
    fn advance(&mut self, place: &mut Block) -> Result<Kind, RecordFault>
        ensures step { advanced self.new.stand result place.new ≡ step self.old.bytes.now self.old.stand place.old }
        ensures bytes { self.new.bytes ≡ self.old.bytes }
    {
        let Stand {
            state,
            at,
            head,
            ..
        } = self.stand;
        match (state, &self.bytes[at..]) {
            (State::Failed(fault), _) => Err(fault),
            (State::End, []) => Ok(Kind::End),
            (State::End, [_, ..]) => {
                let block = 2 + head.modules as usize + head.nets as usize;
                Err(RecordFault::BytesFollow { block, at })
            }
            (State::Head, _) => self.head_step(place),
            (State::Supplies, _) => self.supplies_step(place),
            (State::Module(m), _) => self.module_step(m, place),
            (State::Net(i), _) => self.net_step(i, place),
        }
    }

    fn cursor(&self) -> Cursor<'a>
        ensures bytes { result.bytes ≡ self.now.bytes }
        ensures at { result.at ≡ self.now.stand.at }
    {
        Cursor {
            bytes: self.bytes,
            at: self.stand.at,
        }
    }

    fn head_step(&mut self, place: &mut Block) -> Result<Kind, RecordFault>
        ensures step { advanced self.new.stand result place.new ≡ step_from AtHead self.old.bytes.now self.old.stand place.old }
        ensures bytes { self.new.bytes ≡ self.old.bytes }
    {
        let mut cursor = self.cursor();
        let head = cursor.head().map_err(|fault| (0, fault))?;
        place.head = head;
        self.stand = Stand {
            state: State::Supplies,
            at: cursor.at,
            head,
            ..self.stand
        };
        Ok(Kind::Head)
    }

    fn supplies_step(&mut self, place: &mut Block) -> Result<Kind, RecordFault>
        ensures step { advanced self.new.stand result place.new ≡ step_from AtSupplies self.old.bytes.now self.old.stand place.old }
        ensures bytes { self.new.bytes ≡ self.old.bytes }
    {
        let mut cursor = self.cursor();
        let supplies = cursor.supplies().map_err(|fault| (1, fault))?;
        place.supplies = supplies;
        self.stand = Stand {
            state: module_state(self.stand.head, 0),
            at: cursor.at,
            supplies: supplies.map,
            ..self.stand
        };
        Ok(Kind::Supplies)
    }

    fn module_step(&mut self, m: u32, place: &mut Block) -> Result<Kind, RecordFault>
        requires { m < self.old.stand.head.modules }
        ensures step { advanced self.new.stand result place.new ≡ step_from (AtModule m) self.old.bytes.now self.old.stand place.old }
        ensures bytes { self.new.bytes ≡ self.old.bytes }
    {
        let mut cursor = self.cursor();
        let menu = cursor.menu(self.stand.supplies, 2 + m as usize)?;
        place.menu = menu;
        self.stand = Stand {
            state: module_state(self.stand.head, m + 1),
            at: cursor.at,
            ..self.stand
        };
        Ok(Kind::Module)
    }

    fn net_step(&mut self, i: u32, place: &mut Block) -> Result<Kind, RecordFault>
        requires { i < self.old.stand.head.nets }
        ensures step { advanced self.new.stand result place.new ≡ step_from (AtNet i) self.old.bytes.now self.old.stand place.old }
        ensures bytes { self.new.bytes ≡ self.old.bytes }
    {
        let head = self.stand.head;
        let block = 2 + head.modules as usize + i as usize;
        let mut cursor = self.cursor();
        let net = cursor.net(head.modules).map_err(|fault| (block, fault))?;
        place.net = net;
        self.stand = Stand {
            state: net_state(head, i + 1),
            at: cursor.at,
            ..self.stand
        };
        Ok(Kind::Net)
    }
}
