// The wire line of a message: `kind=Q tn=1 a=3 b=9 sv=1 rt=1 cs=0` and a newline.
pub mod key;
pub mod laws;
pub mod parts;
pub mod read;
pub mod unread;
pub mod write;
