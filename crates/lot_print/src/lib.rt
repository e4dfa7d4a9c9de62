//! Outputs: the texts of replies, listings, totals, histories and refused inputs. Each function writes one text to a
//! watched writer, or a beginning of it if the writer fails, and allocates nothing. The lines of turns gather on a
//! page, which goes out in one write.
//!
//! Its tests stand in `lot_text_tests`.
#![tactic(auto)]

mod cells;
mod figures;
mod funds;
mod histories;
mod laws;
mod lengths;
mod line;
mod loans;
mod lots;
mod page;
mod refused;
mod replies;
mod report;
mod rows;
mod runs;

pub use cells::{write_header, write_told};
pub use figures::{Figures, Spread, write_figures, write_figures_record, write_seeds};
pub use funds::{write_currency_funds, write_ticket_funds};
pub use histories::write_history;
pub use laws::histories_are_read_back;
pub use loans::{Loan, write_loan};
pub use lots::{Compensation, Lot, Lottery, write_lot};
pub use page::Page;
pub use refused::write_fault;
pub use replies::{Heading, write_ended, write_reply};
pub use report::{write_early_end, write_report_line};
pub use rows::{write_currency, write_listing_line, write_thread, write_ticket};
