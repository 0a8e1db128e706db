//! Serials for sealed sheets: a roll gives each number once.
//!
//! Sealing two sheets with one serial would mask both with the same stream, so
//! a serial comes as a ticket that is spent by sealing. A ticket is moved, never
//! copied, and only a roll makes one.

#![tactic(auto)]

ghost use Rattle.std.specs.Prelude.{◌≡◌, ℕ, ◌+◌, ◌<◌, ◌≤◌};
ghost use Rattle.roll.specs.Draws.{Drawn, NeverRepeats};

use refusal::Refusal;

// The serials of one sender, by the last that was used.
#[derive(Drop)]
pub struct Roll {
    last: u32,
}

// Leave to seal one sheet: its serial, which is never 0. It is neither Copy nor
// Clone nor Drop: whoever holds one spends it or hands it on. Only a roll makes one.
pub struct Ticket {
    serial: u32,
    ghost numbered: { 0 < serial },
}

impl Roll {
    ghost use Rattle.roll.specs.Tickets.{serial_of, PairDrawn};

    // A roll whose next serial is one above `last`; 0 for a roll that has given none.
    pub fn new(last: u32) -> Roll
        ensures { result.last ≡ last }
    {
        Roll { last }
    }

    // The last serial used.
    pub fn last(&self) -> u32
        ensures { result ≡ self.now.last }
    {
        self.last
    }

    // Draws the ticket with the next serial; refused exactly when the last
    // serial of all is used.
    pub fn draw(&mut self) -> Result<Ticket, Refusal>
        ensures drawn { Drawn self.old.last self.new.last (serial_of result) }
        ensures law { NeverRepeats }
    {
        let last = &mut self.last;
        *last = last.checked_add(1).ok_or(Refusal::RollUsedUp)?;
        Ok(Ticket { serial: *last })
    }

    // Draws and spends two tickets: their serials, which are never the same.
    pub fn draw_pair(&mut self) -> Result<(u32, u32), Refusal>
        ensures { PairDrawn self.old.last self.new.last result }
    {
        let first = self.draw()?.spend();
        let second = self.draw()?.spend();
        Ok((first, second))
    }
}

impl Ticket {
    pub fn serial(&self) -> u32
        ensures value { result ≡ self.now.serial }
        ensures numbered { 0 < result }
    {
        self.serial
    }

    // Uses the ticket up and gives its serial.
    pub fn spend(self) -> u32
        ensures { result ≡ self.serial }
    {
        let Ticket { serial } = self;
        serial
    }
}
