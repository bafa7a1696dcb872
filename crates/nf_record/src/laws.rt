//! Laws of records, each a contract over the definitions alone.

ghost use Rattle.nf_record.specs.Laws.{RecordsReadBack, OnlyRecordsAreRead, NoFrontIsARecord, NoFrontIsRead, OwnRecordIsFound, FoundIsAnswer};

/// What is written reads back: the code of a record is read as that record.
pub fn records_read_back()
    ensures { RecordsReadBack }
{
    nf_codec::laws::codes_read_back();
}

/// Only records are read: bytes that are read as a record are that record's code. (Memory holds fewer than 2^64 bytes.)
pub fn only_records_are_read()
    ensures { OnlyRecordsAreRead }
{
    nf_codec::laws::only_codes_are_read();
}

/// No proper front of a record is a record. So of a put that was stopped nothing is found.
pub fn no_front_is_a_record()
    ensures { NoFrontIsARecord }
{
    nf_codec::laws::codes_differ();
}

/// No proper front of a record is read as a record.
pub fn no_front_is_read()
    ensures { NoFrontIsRead }
{
    no_front_is_a_record();
    only_records_are_read();
}

/// The record that is kept for a job is found for it, whatever is held at its older key.
pub fn own_record_is_found()
    ensures { OwnRecordIsFound }
{
    records_read_back();
}

/// What is found for a job is what the records that are held for it say, exactly.
pub fn found_is_answer()
    ensures { FoundIsAnswer }
{
    records_read_back();
    only_records_are_read();
}
