// What ends the day early: an output that fails, or a refusal where none is due.
use book::fault::BookFault;
use plan::fault::PlanFault;
use std::io;
use thiserror::Error;

#[derive(Debug, Drop, Error)]
pub enum Trouble {
    #[error("the output fails: {0}")]
    Output(#[from] io::Error),
    #[error("the plan is refused: {0}")]
    Plan(#[from] PlanFault),
    #[error("the book is refused: {0}")]
    Book(#[from] BookFault),
}
