//! What the words of the command line ask for.

/// A proof, and its size.
#[derive(Clone, Copy)]
pub enum Command {
    BringFront(u32),
    Partition(u32),
    Tree(u32),
}

/// The command, and `None` where the words are none.
pub fn command_of(words: &[String]) -> Option<Command> {
    let [kind, size] = words else {
        return None;
    };
    let size = size.as_str().parse::<u32>().ok()?;
    match kind.as_str() {
        "bring_front" => Some(Command::BringFront(size)),
        "partition" => Some(Command::Partition(size)),
        "tree" => Some(Command::Tree(size)),
        _ => None,
    }
}
