// What a byte time's deed does to registers, DRQ, flags and head, and the step pulse that it reports.
#![tactic(auto)]

ghost use Rattle.std.specs.Prelude.{◌≡◌};
ghost use Rattle.effects.specs.Effects.{with_flags, delivered, address_named, raised_sr, record_over, record_read, cell_taken, stepped, halted, effect_of};

use activity::Deed;
use registers::{Flags, Head, Pulse, Regs};

// What a deed can change.
#[derive(Clone, Copy)]
pub struct Parts {
    pub regs: Regs,
    pub drq: bool,
    pub flags: Flags,
    pub head: Head,
    pub pulse: Pulse,
}

// SR after a record: with m it goes up by one, from 255 to 0.
#[tactic(auto, unfolding(crate::specs::Effects::raised_sr))]
fn raised(sr: u8, follows: bool) -> u8
    ensures { result ≡ raised_sr sr follows }
{
    if follows { sr.wrapping_add(1) } else { sr }
}

impl Parts {
    // A written cell takes DR; where DRQ is still on the host is late.
    #[tactic(auto, unfolding(crate::specs::Effects::cell_taken))]
    fn take(self, on: bool) -> Parts
        ensures { result ≡ cell_taken self on }
    {
        Parts {
            drq: on,
            flags: Flags {
                lost: self.flags.lost | self.drq,
                ..self.flags
            },
            ..self
        }
    }

    // A byte goes to DR; a host that has not taken the one before is late, as one that has not written it.
    #[tactic(auto, unfolding(crate::specs::Effects::delivered, crate::specs::Effects::cell_taken))]
    fn deliver(self, byte: u8) -> Parts
        ensures { result ≡ delivered self byte }
    {
        Parts {
            regs: Regs {
                dr: byte,
                ..self.regs
            },
            ..self.take(true)
        }
    }

    // The last byte of an address.
    #[tactic(auto, unfolding(crate::specs::Effects::address_named))]
    fn name(self, byte: u8, track: u8, bad: bool) -> Parts
        ensures { result ≡ address_named self track byte bad }
    {
        let delivered = self.deliver(byte);
        Parts {
            regs: Regs {
                sr: track,
                ..delivered.regs
            },
            flags: Flags {
                crc: self.flags.crc | bad,
                ..delivered.flags
            },
            ..delivered
        }
    }

    fn with_flags(self, flags: Flags) -> Parts
        ensures { result ≡ with_flags self flags }
    {
        Parts { flags, ..self }
    }

    #[tactic(auto, unfolding(crate::specs::Effects::record_over))]
    fn end_record(self, follows: bool) -> Parts
        ensures { result ≡ record_over self follows }
    {
        Parts {
            regs: Regs {
                sr: raised(self.regs.sr, follows),
                ..self.regs
            },
            ..self
        }
    }

    #[tactic(auto, unfolding(crate::specs::Effects::record_read, crate::specs::Effects::record_over))]
    fn read_record(self, deleted: bool, bad: bool, follows: bool) -> Parts
        ensures { result ≡ record_read self deleted bad follows }
    {
        self.end_record(follows).with_flags(Flags {
            deleted,
            crc: self.flags.crc | bad,
            ..self.flags
        })
    }

    #[tactic(auto, unfolding(crate::specs::Effects::stepped))]
    fn step(self, inward: bool, track: u8) -> Parts
        ensures { result ≡ stepped self inward track }
    {
        Parts {
            regs: Regs {
                tr: track,
                ..self.regs
            },
            head: Head {
                inward,
                ..self.head
            },
            pulse: if inward { Pulse::In } else { Pulse::Out },
            ..self
        }
    }

    // The track 0 rule sets TR to 0.
    #[tactic(auto, unfolding(crate::specs::Effects::halted))]
    fn halt(self, rule: bool, load: bool) -> Parts
        ensures { result ≡ halted self rule load }
    {
        Parts {
            regs: Regs {
                tr: if rule { 0 } else { self.regs.tr },
                ..self.regs
            },
            head: Head {
                loaded: self.head.loaded | load,
                inward: self.head.inward & !rule,
            },
            ..self
        }
    }

    // The parts after a deed.
    #[tactic(auto, unfolding(crate::specs::Effects::effect_of))]
    pub fn after(self, deed: Deed) -> Parts
        ensures { result ≡ effect_of self deed }
    {
        match deed {
            Deed::Nothing => self,
            Deed::Deliver(byte) => self.deliver(byte),
            Deed::Named(byte, track, bad) => self.name(byte, track, bad),
            Deed::Matched(bad) => self.with_flags(Flags {
                crc: bad,
                ..self.flags
            }),
            Deed::NotFound => self.with_flags(Flags {
                missing: true,
                ..self.flags
            }),
            Deed::Record(deleted, bad, follows) => self.read_record(deleted, bad, follows),
            Deed::Written(follows) => self.end_record(follows),
            Deed::Ask(on) => Parts { drq: on, ..self },
            Deed::Late => self.with_flags(Flags {
                lost: true,
                ..self.flags
            }),
            Deed::Take(on) => self.take(on),
            Deed::Step(inward, track) => self.step(inward, track),
            Deed::Halt(rule, load) => self.halt(rule, load),
        }
    }
}
