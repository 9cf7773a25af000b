// The words of a command.
use run_text::number32;

// A command: its letter and two numbers.
#[derive(Clone, Copy)]
pub struct Command {
    pub letter: u8,
    pub x: u32,
    pub y: u32,
}

// The letter that a word is, where it is a single one.
fn letter_of(word: &[u8]) -> Option<u8> {
    if word.len() == 1 { Some(word[0]) } else { None }
}

// The command that three words are; a word that is missing is empty. None where the first is no letter.
pub fn command_of(letter: &[u8], x: &[u8], y: &[u8]) -> Option<Command> {
    Some(Command {
        letter: letter_of(letter)?,
        x: number32(x),
        y: number32(y),
    })
}
