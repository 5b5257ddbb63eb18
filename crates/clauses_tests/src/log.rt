//! What was answered.
use clauses::fault::{BaseFault, Hinted};

#[derive(Drop)]
pub struct Log {
    trace: u64,
    pub calls: u32,
    pub yes: u32,
    pub no: u32,
    pub units: u32,
    pub conflicts: u32,
    pub useless: u32,
    pub malformed: u32,
    pub not_live: u32,
    pub no_room: u32,
    pub in_trial: u32,
}

impl Log {
    pub fn new() -> Log {
        Log {
            trace: 0,
            calls: 0,
            yes: 0,
            no: 0,
            units: 0,
            conflicts: 0,
            useless: 0,
            malformed: 0,
            not_live: 0,
            no_room: 0,
            in_trial: 0,
        }
    }

    /// Whether the answers differ anywhere.
    pub fn differs(&self, other: &Log) -> bool {
        self.trace != other.trace || self.calls != other.calls
    }

    pub fn number(&mut self, x: u32) {
        self.trace = self
            .trace
            .wrapping_mul(6_364_136_223_846_793_005)
            .wrapping_add(u64::from(x))
            .wrapping_add(1_442_695_040_888_963_407);
        self.calls = self.calls.wrapping_add(1);
    }

    pub fn fault(&mut self, fault: BaseFault) {
        self.number(fault.number());
        match fault {
            BaseFault::Malformed => self.malformed = self.malformed.wrapping_add(1),
            BaseFault::NotLive => self.not_live = self.not_live.wrapping_add(1),
            BaseFault::NoRoom => self.no_room = self.no_room.wrapping_add(1),
            BaseFault::InTrial => self.in_trial = self.in_trial.wrapping_add(1),
        }
    }

    // The trace is numbers alone, so that two of them compare as one; what a hint or a run says is a number past 1000.

    /// What a call answers that gives a number.
    pub fn numbered(&mut self, answer: Result<u32, BaseFault>) {
        match answer {
            Ok(number) => self.number(number),
            Err(fault) => self.fault(fault),
        }
    }

    /// What a call answers that gives nothing.
    pub fn done(&mut self, answer: Result<(), BaseFault>) {
        self.numbered(answer.map(|()| 0));
    }

    pub fn hinted(&mut self, answer: Result<Hinted, BaseFault>) {
        match answer {
            Ok(Hinted::Unit) => {
                self.number(1001);
                self.units = self.units.wrapping_add(1);
            }
            Ok(Hinted::Conflict) => {
                self.number(1002);
                self.conflicts = self.conflicts.wrapping_add(1);
            }
            Ok(Hinted::Useless) => {
                self.number(1003);
                self.useless = self.useless.wrapping_add(1);
            }
            Err(fault) => self.fault(fault),
        }
    }

    pub fn answer(&mut self, answer: Result<bool, BaseFault>) {
        match answer {
            Ok(true) => {
                self.number(1004);
                self.yes = self.yes.wrapping_add(1);
            }
            Ok(false) => {
                self.number(1005);
                self.no = self.no.wrapping_add(1);
            }
            Err(fault) => self.fault(fault),
        }
    }

    pub fn value(&mut self, value: Option<bool>) {
        self.number(match value {
            None => 1006,
            Some(true) => 1007,
            Some(false) => 1008,
        });
    }

    pub fn join(&mut self, other: &Log) {
        self.calls = self.calls.wrapping_add(other.calls);
        self.yes = self.yes.wrapping_add(other.yes);
        self.no = self.no.wrapping_add(other.no);
        self.units = self.units.wrapping_add(other.units);
        self.conflicts = self.conflicts.wrapping_add(other.conflicts);
        self.useless = self.useless.wrapping_add(other.useless);
        self.malformed = self.malformed.wrapping_add(other.malformed);
        self.not_live = self.not_live.wrapping_add(other.not_live);
        self.no_room = self.no_room.wrapping_add(other.no_room);
        self.in_trial = self.in_trial.wrapping_add(other.in_trial);
    }
}
