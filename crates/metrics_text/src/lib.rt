//! What a running proxy tells of itself in numbers, as texts: the text format of Prometheus, which a monitor reads again and again, and a page
//! for a browser. What the numbers are is counted elsewhere, and nothing here knows of sockets.
#![tactic(auto)]

mod families;
mod figures;
mod fronts;
mod members;
mod names;
mod page;
mod pieces;
mod ranges;
mod reply;
mod rows;
mod series;
mod singles;

pub use families::metrics_text;
pub use figures::{
    ClientFigures, Figures, MachineFigures, MemberFigure, MemberState, RangeFigure, ReplyFigure,
    WorkFigures,
};
pub use page::page_text;
pub use reply::{Content, reply_text};
