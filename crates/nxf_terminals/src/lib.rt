//! What tokens are to the grammar, and the cursor that rules read them by.
#![tactic(auto)]

mod cursor;
mod error;
mod names;
mod sign;

pub use cursor::Cursor;
pub use error::{GrammarError, push};
pub use names::{is_word, token_text};
pub use nxf_tree::Profile;
pub use sign::{Sign, is_dollar, same_sign, sign_of};
