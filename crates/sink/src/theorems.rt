// What is proved of packing, of digits and of writing, each as the contract of a function.
ghost use Rattle.sink.specs.Claims.{PackedUnpacks, UnpackedPacks, BitsDetermine, WrittenReads, PackedReads, DigitSays, SaidDigit, TextReads};

// Packing and unpacking undo each other, and bits determine their bytes.
#[tactic(auto, using(crate::proofs::Packing::packed_unpacks, crate::proofs::Packing::unpacked_packs, crate::proofs::Packing::bits_determine))]
pub fn packing_inverts()
    ensures unpacks { PackedUnpacks }
    ensures packs { UnpackedPacks }
    ensures only { BitsDetermine }
{}

// A list that others were written over, place by place.
pub fn written_reads<E>()
    ensures { WrittenReads E }
{}

// A packed sink's bytes, bit by bit.
#[tactic(auto, using(crate::proofs::Reading::packed_reads))]
pub fn packed_reads()
    ensures { PackedReads }
{}

// A text sink's bytes, digit by digit.
pub fn text_reads()
    ensures says { DigitSays }
    ensures back { SaidDigit }
    ensures reads { TextReads }
{}
