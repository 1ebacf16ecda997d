// Refusals as others: a bad table's where a table is checked first, and each by its number and place.
ghost use Rattle.std.specs.Prelude.{◌≡◌, Err};
ghost use Rattle.rules.specs.Answers.{
  refused,
  fault_number,
  of_table,
  of_packet,
  of_text,
  of_field,
  of_listing,
  of_conversion,
  of_edit,
};
ghost use Rattle.rules.specs.declared.PacketRefusal.{PacketRefusal};
ghost use Rattle.rules.specs.declared.FieldRefusal.{FieldRefusal};
ghost use Rattle.rules.specs.declared.ConversionRefusal.{ConversionRefusal};
ghost use Rattle.rules.specs.declared.EditRefusal.{EditRefusal};

use crate::{
    ConversionRefusal, EditRefusal, Fault, FieldRefusal, ListingRefusal, PacketRefusal,
    TableRefusal, TextRefusal,
};

impl From<TableRefusal> for PacketRefusal {
    ghost from_gives = { λ _ r. r ≡ PacketRefusal.NotGood };

    fn from(_e: TableRefusal) -> PacketRefusal {
        PacketRefusal::NotGood
    }
}

impl From<TableRefusal> for FieldRefusal {
    ghost from_gives = { λ _ r. r ≡ FieldRefusal.NotGood };

    fn from(_e: TableRefusal) -> FieldRefusal {
        FieldRefusal::NotGood
    }
}

impl From<TableRefusal> for ConversionRefusal {
    ghost from_gives = { λ _ r. r ≡ ConversionRefusal.NotGood };

    fn from(_e: TableRefusal) -> ConversionRefusal {
        ConversionRefusal::NotGood
    }
}

impl From<TableRefusal> for EditRefusal {
    ghost from_gives = { λ _ r. r ≡ EditRefusal.NotGood };

    fn from(_e: TableRefusal) -> EditRefusal {
        EditRefusal::NotGood
    }
}

impl Fault {
    // The number of a field's refusal.
    #[tactic(auto, unfolding(crate::specs::Answers::fault_number))]
    pub fn number(self) -> u8
        ensures { result ≡ fault_number self }
    {
        match self {
            Fault::BitsMissing => 24,
            Fault::ConstraintFalse => 25,
            Fault::AbsentRead => 26,
            Fault::OutOfRange => 27,
            Fault::ZeroDivisor => 29,
        }
    }
}

// A refusal's number and place, document 01's or 02's; place 0 where it has none. Numbers: C and the answer lines tell
// them.
#[derive(Clone, Copy, PartialEq, Eq, Debug)]
pub struct Refusal {
    pub number: u8,
    pub place: usize,
}

fn refused(number: u8, place: usize) -> Refusal
    ensures { result ≡ record { number = number; place = place } }
{
    Refusal { number, place }
}

impl From<TableRefusal> for Refusal {
    ghost from_gives = { λ e r. refused r.number r.place ≡ of_table (Err e) };

    #[tactic(auto, unfolding(crate::specs::Answers::of_table))]
    fn from(e: TableRefusal) -> Refusal {
        match e {
            TableRefusal::NotGood => refused(21, 0),
        }
    }
}

impl From<PacketRefusal> for Refusal {
    ghost from_gives = { λ e r. refused r.number r.place ≡ of_packet (Err e) };

    #[tactic(auto, unfolding(crate::specs::Answers::of_packet))]
    fn from(e: PacketRefusal) -> Refusal {
        match e {
            PacketRefusal::NotGood => refused(21, 0),
            PacketRefusal::TooLong => refused(22, 0),
            PacketRefusal::ShortRun => refused(23, 0),
            PacketRefusal::Field(fault, place) => refused(fault.number(), place),
            PacketRefusal::LeftOver => refused(28, 0),
        }
    }
}

impl From<TextRefusal> for Refusal {
    ghost from_gives = { λ e r. refused r.number r.place ≡ of_text (Err e) };

    #[tactic(auto, unfolding(crate::specs::Answers::of_text))]
    fn from(e: TextRefusal) -> Refusal {
        match e {
            TextRefusal::TooLong => refused(1, 0),
            TextRefusal::BadByte => refused(2, 0),
            TextRefusal::BadLine(line) => refused(3, line),
            TextRefusal::TooMany => refused(4, 0),
            TextRefusal::BadForm(line) => refused(5, line),
            TextRefusal::OverLimit(line) => refused(6, line),
            TextRefusal::Mismatch(line) => refused(7, line),
            TextRefusal::Repeated(line) => refused(8, line),
            TextRefusal::BadName(line) => refused(9, line),
            TextRefusal::BadRest(line) => refused(10, line),
            TextRefusal::NoRoom => refused(11, 0),
        }
    }
}

impl From<FieldRefusal> for Refusal {
    ghost from_gives = { λ e r. refused r.number r.place ≡ of_field (Err e) };

    #[tactic(auto, unfolding(crate::specs::Answers::of_field))]
    fn from(e: FieldRefusal) -> Refusal {
        match e {
            FieldRefusal::NotGood => refused(21, 0),
            FieldRefusal::Unknown => refused(30, 0),
        }
    }
}

impl From<ListingRefusal> for Refusal {
    ghost from_gives = { λ e r. refused r.number r.place ≡ of_listing (Err e) };

    #[tactic(auto, unfolding(crate::specs::Answers::of_listing))]
    fn from(e: ListingRefusal) -> Refusal {
        match e {
            ListingRefusal::NoRoom => refused(11, 0),
        }
    }
}

impl From<ConversionRefusal> for Refusal {
    ghost from_gives = { λ e r. refused r.number r.place ≡ of_conversion (Err e) };

    #[tactic(auto, unfolding(crate::specs::Answers::of_conversion))]
    fn from(e: ConversionRefusal) -> Refusal {
        match e {
            ConversionRefusal::NotGood => refused(21, 0),
            ConversionRefusal::NoRoom => refused(11, 0),
        }
    }
}

impl From<EditRefusal> for Refusal {
    ghost from_gives = { λ e r. refused r.number r.place ≡ of_edit (Err e) };

    #[tactic(auto, unfolding(crate::specs::Answers::of_edit))]
    fn from(e: EditRefusal) -> Refusal {
        match e {
            EditRefusal::NotGood => refused(21, 0),
            EditRefusal::NoFields => refused(30, 0),
            EditRefusal::StillRead(place) => refused(31, place),
            EditRefusal::BeyondLimits => refused(34, 0),
            EditRefusal::NoRoom => refused(11, 0),
        }
    }
}
