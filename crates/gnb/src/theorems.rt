// Theorems over the definitions of numbering.
ghost use Rattle.gnb.specs.Sending.{SentStands, FieldsReadBack, OwnPlaces};

// Whatever the calls: the table holds exactly the assignments sent, and the numbers of the state are theirs.
pub fn sent_stands()
    ensures { SentStands }
{}

// A UE that receives an assignment reads the value of its number, and of the total where there is one.
pub fn fields_read_back()
    ensures { FieldsReadBack }
{}

// The card's own table never has a grant whose place is past the report, so that a reading of it is never declined by that.
pub fn own_places()
    ensures { OwnPlaces }
{}
