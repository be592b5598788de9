//! Laws about recordings and scripts as bytes.

ghost use Rattle.w4_defs.specs.Recording.{
  EncodedIsDecoded,
  DecodedIsEncoded,
  EncodesAtMostOne,
  OneEncoding,
  EncodingIsDecoded,
  RewrittenIsSame,
  EncodingLength,
  LongestEncoding,
  RecordingCases,
  BadRecordingCases,
};
ghost use Rattle.w4_defs.specs.Lines.{DecimalCases, DecimalIsRead, FirstPiece, LastPiece, LineCases, LinesInParts};
ghost use Rattle.w4_defs.specs.OrderFile.{OrdersInParts, FileLimit, FirstBadLine};
ghost use Rattle.w4_defs.specs.Script.{OrderCases, BadOrderCases, ScriptCases, ScriptLimit};

/// What bytes encode is decoded, and what is decoded is encoded: bytes encode at most one recording, in
/// either version, and a recording has one encoding of version 2, which is decoded again.
pub fn recordings_are_read_back()
    ensures decoded { EncodedIsDecoded }
    ensures encoded { DecodedIsEncoded }
    ensures at_most_one { EncodesAtMostOne }
    ensures one_encoding { OneEncoding }
    ensures again { EncodingIsDecoded }
    ensures rewritten { RewrittenIsSame }
    ensures length { EncodingLength }
    ensures longest { LongestEncoding }
{}

/// Some recordings and their bytes, and bytes that encode none.
pub fn recording_cases()
    ensures good { RecordingCases }
    ensures bad { BadRecordingCases }
{}

/// Lines are read one after another.
pub fn lines_in_order()
    ensures first { FirstPiece }
    ensures last { LastPiece }
    ensures parts { LinesInParts }
{}

/// The decimal text of a number is read as that number.
pub fn numbers_are_read()
    ensures { DecimalIsRead }
{}

/// Some lines and numbers.
pub fn line_cases()
    ensures lines { LineCases }
    ensures numbers { DecimalCases }
{}

/// Orders of any kind are read line by line, up to the first bad one, from at most 1,048,576 bytes.
pub fn orders_in_order<O>()
    ensures parts { OrdersInParts O }
    ensures bad { FirstBadLine O }
    ensures limit { FileLimit O }
{}

/// A line of each kind, each way in which a line is bad, and some scripts.
pub fn script_cases()
    ensures good { OrderCases }
    ensures bad { BadOrderCases }
    ensures scripts { ScriptCases }
    ensures limit { ScriptLimit }
{}
