//! The words of the program `credkeep`: the commands of its command line, the texts on refused
//! words and files, and the passwords that it reads. `credkeep` opens the files, and `cred_keep`
//! does the commands.
#![tactic(auto)]

mod arguments;
mod book_commands;
mod command_line;
mod commands;
mod costs;
mod fault;
mod options;
mod passwords;
mod progress;
mod refusal;
mod slip;

pub use command_line::{Command, CommandLine, Echo, Remarks, Service, read_words};
pub use fault::FileFault;
pub use passwords::{advise, read_passwords};
pub use progress::{Counted, ProgressLine};
pub use refusal::say;
