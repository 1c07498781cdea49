// A session: the controller and the rows, and what each line of the script comes to.
use crate::answers::Answer;
use crate::calls::Controller;
use crate::failures::Failure;
use crate::output::Outgoing;
use crate::rows::Rows;
use crate::views::{View, put_cells};
use script::{Line, Request};
use std::io;
use std::io::Write;

#[derive(Drop)]
pub struct Session {
    controller: Controller,
    rows: Rows,
}

impl Session {
    pub fn start() -> Session {
        Session {
            controller: Controller::start(),
            rows: Rows::start(),
        }
    }

    // What the controller says to a line that worked it or its drive lines.
    fn tell(&self, letter: u8, answer: Answer, out: &mut Outgoing) -> io::Result<()> {
        let letter = char::from(letter);
        let state = self.controller.state();
        writeln!(out, "{letter}{answer}{state}")
    }

    // Carries out a line, and prints its letter and what it comes to.
    pub fn carry_out(&mut self, line: &Line, out: &mut Outgoing) -> Result<(), Failure> {
        let request = script::request_of(line)?;
        let (Some(letter), Some(request)) = (line.letter, request) else {
            return Ok(());
        };
        match request {
            Request::PowerOn {
                mfm,
                length,
                wd1797,
            } => {
                let answer = self.controller.power_on(mfm, length, wd1797);
                self.rows.blank(length as usize, mfm);
                self.tell(letter, answer, out)?;
            }
            Request::SetLines { bits } => {
                self.controller.set_lines(bits);
                self.tell(letter, Answer::Nothing, out)?;
            }
            Request::Controller(call) => {
                let answer = self.controller.carry_out(call, self.rows.current_mut());
                self.tell(letter, answer, out)?;
            }
            Request::Rows(task) => {
                let shown = self.rows.carry_out(task, line)?;
                out.write_all(&[letter])?;
                put_cells(out, shown)?;
            }
            Request::View { mfm, track, sector } => {
                out.write_all(&[letter])?;
                View::of(&self.rows, mfm, track, sector).put(out)?;
            }
        }
        Ok(())
    }
}
