//! Refusals of the readers of bodies as refusals of a reply.
ghost use Rattle.std.specs.Prelude.{◌≡◌};
ghost use Rattle.results_json.specs.Reading.{IsNumbered};
ghost use Rattle.reply_reading.specs.Faults.{line_fault, row_fault};

use crate::ReplyFault;
use nquads::DataFault;
use results_json::ResultFault;

/// The fault of a document, whose lines are counted from 1.
pub fn line_fault(fault: DataFault) -> ReplyFault
    ensures { result ≡ line_fault fault }
{
    match fault {
        DataFault::BadLine(number) | DataFault::TooLong(number) => ReplyFault::BadReply(number),
        DataFault::Memory => ReplyFault::Memory,
    }
}

/// The fault of a table, whose rows its reader counts from 0.
pub fn row_fault(fault: ResultFault) -> ReplyFault
    requires { IsNumbered fault }
    ensures { result ≡ row_fault fault }
{
    match fault {
        ResultFault::NotJson | ResultFault::BadShape => ReplyFault::BadReply(0),
        ResultFault::BadTerm(number) => ReplyFault::BadReply(number + 1),
        ResultFault::Memory => ReplyFault::Memory,
    }
}
