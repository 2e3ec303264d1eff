//! Why a table is refused: one fault type for each layer, each with its number and place.
ghost use Rattle.std.specs.Prelude.{◌≡◌};
ghost use Rattle.table.specs.Refusals.{of_row, of_table};
ghost use Rattle.table.specs.declared.fault.TableFault.TheVariants.{Row};

use refusal::Refusal;

// A fault of one row, with the row's number in its table: in each case, so that it is made and passed up in one word.
#[derive(Clone, Copy)]
pub enum RowFault {
    // unknown letter
    Letter(u8),
    // number out of range, or an unused field or a zero byte that is not zero
    Field(u8),
    // a used operand that is no earlier row of the chain, or is an R row
    Operand(u8),
    // no window from a to b
    Window(u8),
    // an R row whose number has been used
    Used(u8),
    // a window that the memory kind does not admit
    Limit(u8),
    // a next row that is not in the table, or has been taken
    Next(u8),
}

// A fault of a table.
#[derive(Clone, Copy)]
pub enum TableFault {
    // not as many bytes as head and rows have
    Length,
    // other first four bytes
    Mark,
    // a wrong row count, first row or zero byte
    Head,
    Row(RowFault),
    // a chain without a rule
    NoRule,
}

impl From<RowFault> for TableFault {
    ghost from_gives = { λ x r. r ≡ Row x };

    fn from(value: RowFault) -> TableFault {
        TableFault::Row(value)
    }
}

// The number and place of a row's fault.
impl From<RowFault> for Refusal {
    ghost from_gives = { λ x r. r ≡ of_row x };

    fn from(fault: RowFault) -> Refusal {
        let (number, row) = match fault {
            RowFault::Letter(row) => (4, row),
            RowFault::Field(row) => (5, row),
            RowFault::Operand(row) => (6, row),
            RowFault::Window(row) => (7, row),
            RowFault::Used(row) => (8, row),
            RowFault::Limit(row) => (9, row),
            RowFault::Next(row) => (10, row),
        };
        Refusal::new(number, u32::from(row))
    }
}

// The number and place of a table's fault: a row's keeps its own.
impl From<TableFault> for Refusal {
    ghost from_gives = { λ x r. r ≡ of_table x };

    fn from(fault: TableFault) -> Refusal {
        let number = match fault {
            TableFault::Length => 1,
            TableFault::Mark => 2,
            TableFault::Head => 3,
            TableFault::Row(fault) => return fault.into(),
            TableFault::NoRule => 11,
        };
        Refusal::new(number, 0)
    }
}
