//! Object text: an image, which is code of a program with what has to be known of its variables and of the types of its
//! ports, as a text of lines, and back.
//!
//! Form 1, the only form, has these lines, and nothing behind them:
//!
//! ```text
//! fmc object 1
//! types A                     then, A times:
//!   type F                    then, F times:
//!     field KIND OF WORDS SIZE
//! units U                     then, U times:
//!   unit HEADING EXTENTS CELLS ENTRIES INSTRUCTIONS
//!                             then so many of each of these:
//!     extent WORDS
//!     cell NAME KIND OF FIRST WORDS FORMAL BACK
//!     entry LINE ADDRESS
//!     instr OPERATION FIRST SECOND
//! ```
//!
//! (No line is indented.) Numbers are decimal without zeros in front, 0 to 4,294,967,295; the two operands of an
//! instruction have 64 bits and may have a sign. A name has capitals, digits and underscores behind a capital. One
//! blank stands between two words, and each line ends with a line feed alone. The parts of an instruction are those of
//! some instruction (`Instr::of` of fm_code). So an image has one text, and a text one image. Of bytes that are no
//! image's text, one line is the first that is malformed: the lines before it begin some image's text, and with it they
//! begin none.
//!
//! Whether an image makes sense, which no line alone can tell, is nothing that is asked here.
#![tactic(auto)]

mod fail;
mod image;
mod laws;
mod lines;
mod many;
mod parts;
mod reading;
mod words;
mod writing;

pub use fail::ObjectFail;
pub use image::{Cell, FieldImage, Image, UnitImage};
pub use laws::one_answer;
pub use reading::read;
pub use writing::write;
