// The claim over the definitions of both cards' calls.
ghost use Rattle.agreement.specs.Agreement.{CardsAgree, CardsAgreeInverted};

// For whoever makes the calls himself: where the gNB reads the bits that the list of the sink gained, the cards agree.
pub fn cards_agree()
    ensures plain { CardsAgree }
    ensures inverted { CardsAgreeInverted }
{}
