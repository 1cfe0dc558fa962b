//! Laws of values as JSON: more cells and freezing keep it, equal values without sets have the same, and it is read
//! back.

ghost use Rattle.star_data.specs.Laws.{DataIsPlain, DataStays, EqualAreSame, IsNoLonger, NoCycleIsData, OneData, OneJson, PartsAreData, ReadsBack, SerdeReadsBack, TextTells};

/// Data stays where cells stay, and at every greater depth.
pub fn data_stays()
    ensures { DataStays }
{}

/// A value has the same data at all depths where it has any.
pub fn one_data()
    ensures { OneData }
{}

/// The parts of a value that is data are data.
pub fn parts_are_data()
    ensures { PartsAreData }
{}

/// No value inside of a value that is data is a function, a range, or a dictionary with a key that is not a string.
pub fn data_is_plain()
    ensures { DataIsPlain }
{}

/// A value that contains itself is not data.
pub fn no_cycle_is_data()
    ensures { NoCycleIsData }
{}

/// Values that are data and that equality finds equal have the same JSON, if there is no set in the left one.
pub fn equal_are_same()
    ensures { EqualAreSame }
{}

/// The text of a value's JSON is read back as its data.
pub fn reads_back()
    ensures { ReadsBack }
{}

/// serde_json's own reader reads it back too, if the value nests no deeper than this reader reads.
pub fn serde_reads_back()
    ensures { SerdeReadsBack }
{}

/// The text of a value's JSON determines its data.
pub fn text_tells()
    ensures { TextTells }
{}

/// The JSON of a value is at most one and a half times as long as its text, if no name of a struct has a byte that JSON
/// escapes.
pub fn is_no_longer()
    ensures { IsNoLonger }
{}

/// A program that writes the JSON of a value writes the text that the report has of it, if levels and steps suffice.
pub fn one_json()
    ensures { OneJson }
{}
