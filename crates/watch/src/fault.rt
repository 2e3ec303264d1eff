//! Why Set turned a table, a car list or its memories down.
ghost use Rattle.std.specs.Prelude.{◌≡◌};
ghost use Rattle.watch.specs.Refusals.{of_set};
ghost use Rattle.watch.specs.declared.fault.SetFault.TheVariants.{Table as OfTable, List as OfList};

use cars::ListFault;
use refusal::Refusal;
use table::fault::TableFault;

// The faults of the set layer, over those of the table layer.
#[derive(Clone, Copy)]
pub enum SetFault {
    Table(TableFault),
    List(ListFault),
    // fewer memories than cars × timed rows
    Memories,
}

impl From<TableFault> for SetFault {
    ghost from_gives = { λ x r. r ≡ OfTable x };

    fn from(value: TableFault) -> SetFault {
        SetFault::Table(value)
    }
}

impl From<ListFault> for SetFault {
    ghost from_gives = { λ x r. r ≡ OfList x };

    fn from(value: ListFault) -> SetFault {
        SetFault::List(value)
    }
}

// The number and place of a fault of Set.
impl From<SetFault> for Refusal {
    ghost from_gives = { λ x r. r ≡ of_set x };

    fn from(fault: SetFault) -> Refusal {
        match fault {
            SetFault::Table(fault) => fault.into(),
            SetFault::List(fault) => fault.into(),
            SetFault::Memories => Refusal::new(13, 0),
        }
    }
}
