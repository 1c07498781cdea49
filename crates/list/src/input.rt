// Standard input, over a buffer that holds at least a whole picture or all that is left.
ghost use Rattle.std.specs.Prelude.{◌≡◌, ◌-◌, ◌≤◌, length, IfSome, option_map};
ghost use Rattle.list.specs.Input.{Filled, input_left};

use crate::streams::Streams;

// Reads on until the buffer is full or the input ends. So many bytes are held at its front, and then. No `for` counts them: each
// turn goes on by as many as a read hands over.
pub fn fill(streams: &mut Streams, buffer: &mut [u8], held: usize) -> usize
    requires { held ≤ length buffer.old }
    ensures { Filled buffer.old held buffer.new result }
{
    let mut done = held;
    while done < buffer.len() {
        let count = streams.read(&mut buffer[done..]);
        if count == 0 {
            return done;
        }
        done += count;
    }
    done
}

// Moves the bytes held after a picture to the buffer's front, and hands back how many they are. Where the picture is refused,
// all stay, and nothing is handed back.
#[tactic(auto, unfolding(crate::specs::Input::input_left))]
pub fn keep(buffer: &mut [u8], taken: Option<usize>, held: usize) -> Option<usize>
    requires { IfSome taken (λ n. n ≤ held) × (held ≤ length buffer.old) }
    ensures value { result ≡ option_map (λ n. held - n) taken }
    ensures buffer_after { buffer.new ≡ input_left buffer.old held taken }
{
    let taken = taken?;
    buffer.copy_within(taken..held, 0);
    Some(held - taken)
}
