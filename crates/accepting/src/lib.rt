// What an accepted command does at once, by its class.
#![tactic(auto)]

ghost use Rattle.std.specs.Prelude.{◌≡◌};
ghost use Rattle.accepting.specs.Accepting.{held_by, accepted_by, begin_regs, begin_wires, forced_flags, begin_flags, begin_head, conditions_for, works_from, begin_activity, begin_side};

use activity::Activity;
use command::bits::{Flag, is_on, selects_side};
use command::{Chip, Class, Command};
use registers::{Conditions, Flags, Head, Lines, Regs, Wires};

// A command as it is accepted, with its byte and its class; whether it is a write that protection ends at once, whether it ends
// at once for that or another reason, and whether it asks for its first byte at once.
#[derive(Clone, Copy)]
pub struct Acceptance {
    pub command: Command,
    pub byte: u8,
    pub class: Class,
    pub held: bool,
    pub ends: bool,
    pub asks: bool,
}

// A write that protection ends at once; not ready comes first.
#[tactic(auto, unfolding(crate::specs::Accepting::held_by, crate::specs::Accepting::writes))]
fn held(command: Command, lines: Lines) -> bool
    ensures { result ≡ held_by command lines }
{
    let writes = matches!(command, Command::WriteSector | Command::WriteTrack);
    writes & lines.protect & lines.ready
}

#[tactic(auto, unfolding(crate::specs::Accepting::forced_flags))]
fn forced_flags(flags: Flags, busy: bool) -> Flags
    ensures { result ≡ forced_flags flags busy }
{
    if busy {
        return flags;
    }
    Flags {
        type1: true,
        missing: false,
        crc: false,
        ..flags
    }
}

// The conditions that a command asks for, as long as it is the last one.
#[tactic(auto, unfolding(crate::specs::Accepting::conditions_for))]
pub fn conditions_for(byte: u8, class: Class) -> Conditions
    ensures { result ≡ conditions_for byte class }
{
    match class {
        Class::Forces => Conditions {
            on: is_on(byte, Flag::AtReady),
            off: is_on(byte, Flag::AtNotReady),
            index: is_on(byte, Flag::AtIndex),
        },
        Class::Seeks | Class::Steps | Class::Works => Conditions {
            on: false,
            off: false,
            index: false,
        },
    }
}

// Where Types II and III begin, if they do not end at once.
#[tactic(auto, unfolding(crate::specs::Accepting::works_from))]
fn works_from(ends: bool, settles: bool, mfm: bool) -> Activity
    ensures { result ≡ works_from ends settles mfm }
{
    if ends {
        return Activity::Idle;
    }
    if settles {
        return Activity::Settle(command::times::settle_time(mfm));
    }
    Activity::Settle(0)
}

impl Acceptance {
    // Types II and III look: not ready ends them at once, and next a write under protection. Write Track asks at once.
    #[tactic(auto, unfolding(crate::specs::Accepting::asks_first))]
    pub fn new(command: Command, byte: u8, lines: Lines) -> Acceptance
        ensures { result ≡ accepted_by command byte lines }
    {
        let held = held(command, lines);
        let ends = held | !lines.ready;
        Acceptance {
            command,
            byte,
            class: command::class_of(command),
            held,
            ends,
            asks: (command == Command::WriteTrack) & !ends,
        }
    }

    // Restore sets TR 255 and DR 0.
    #[tactic(auto, unfolding(crate::specs::Accepting::begin_regs))]
    pub fn regs(self, regs: Regs) -> Regs
        ensures { result ≡ begin_regs regs self.command }
    {
        if command::is_restore(self.command) {
            return Regs {
                tr: 255,
                dr: 0,
                ..regs
            };
        }
        regs
    }

    #[tactic(auto, unfolding(crate::specs::Accepting::begin_wires))]
    pub fn wires(self, wires: Wires) -> Wires
        ensures { result ≡ begin_wires wires self.asks self.ends self.byte self.class }
    {
        match self.class {
            Class::Seeks | Class::Steps => Wires {
                drq: false,
                intrq: false,
            },
            Class::Works => Wires {
                drq: self.asks,
                intrq: self.ends,
            },
            Class::Forces => Wires {
                intrq: is_on(self.byte, Flag::AtOnce),
                ..wires
            },
        }
    }

    #[tactic(auto, unfolding(crate::specs::Accepting::begin_flags))]
    pub fn flags(self, flags: Flags, busy: bool) -> Flags
        ensures { result ≡ begin_flags flags self.held busy self.class }
    {
        match self.class {
            Class::Seeks | Class::Steps => Flags::CLEAR,
            Class::Works => Flags {
                type1: false,
                protected: self.held,
                ..Flags::CLEAR
            },
            Class::Forces => forced_flags(flags, busy),
        }
    }

    #[tactic(auto, unfolding(crate::specs::Accepting::begin_head))]
    pub fn head(self, head: Head) -> Head
        ensures { result ≡ begin_head head self.ends self.byte self.class }
    {
        match self.class {
            Class::Seeks | Class::Steps => Head {
                loaded: is_on(self.byte, Flag::Head),
                ..head
            },
            Class::Works => Head {
                loaded: head.loaded | !self.ends,
                ..head
            },
            Class::Forces => head,
        }
    }

    #[tactic(auto, unfolding(crate::specs::Accepting::begin_activity))]
    pub fn activity(self, mfm: bool) -> Activity
        ensures { result ≡ begin_activity self.ends mfm self.byte self.class }
    {
        match self.class {
            Class::Seeks => Activity::Seek(1),
            Class::Steps => Activity::Pulse,
            Class::Works => works_from(self.ends, is_on(self.byte, Flag::Settle), mfm),
            Class::Forces => Activity::Idle,
        }
    }

    // Types II and III set the side output, also one that ends at once; the other commands leave it.
    #[tactic(auto, unfolding(crate::specs::Accepting::begin_side))]
    pub fn side(self, sso: bool, chip: Chip) -> bool
        ensures { result ≡ begin_side sso chip self.byte self.class }
    {
        match self.class {
            Class::Works => selects_side(chip, self.byte),
            Class::Seeks | Class::Steps | Class::Forces => sso,
        }
    }
}
