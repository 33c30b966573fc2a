// Answers, read from the tokens of a JSON text.
ghost use Rattle.journal_reading.specs.Pulls.{Pulls, PullsRow};
ghost use Rattle.journal_text.specs.Options.{each};
ghost use Rattle.journal_text.specs.Reading.{answer_in, file_in};
ghost use Rattle.journal_text.specs.Values.{list_in};

use crate::misread::Misread;
use crate::values::{end, next_content, next_flag, next_signed, next_text, open};
use exec_journal::{Answer, NamedFile};
use json::Reader;
use plain_values::Items;
use std::alloc::Global;

pub(crate) fn next_answer(alloc: Global, reader: &mut Reader<'_>) -> Result<Answer, Misread>
    ensures { Pulls 3 answer_in result reader.old reader.new }
{
    open(reader)?;
    let number = next_signed(reader)?;
    let exit = next_signed(reader)?;
    let cancelled = next_flag(reader)?;
    let text = next_text(alloc, reader)?;
    let refusal = next_text(alloc, reader)?;
    let files = next_files(alloc, reader)?;
    let version = next_signed(reader)?;
    end(reader)?;
    Ok(Answer {
        number,
        exit,
        cancelled,
        text,
        refusal,
        files,
        version,
    })
}

pub(crate) fn next_files(
    alloc: Global,
    reader: &mut Reader<'_>,
) -> Result<Items<NamedFile>, Misread>
    ensures { Pulls 2 (list_in file_in) result reader.old reader.new }
{
    open(reader)?;
    each_file(alloc, reader)
}

fn each_file(alloc: Global, reader: &mut Reader<'_>) -> Result<Items<NamedFile>, Misread>
    ensures { PullsRow 1 (each file_in) result reader.old reader.new }
{
    let mut files = Vec::new(alloc);
    'row: while !reader.take_end_array() {
        let file = next_file(alloc, reader)?;
        files.push(file)?;
    }
    Ok(Items::of(files))
}

fn next_file(alloc: Global, reader: &mut Reader<'_>) -> Result<NamedFile, Misread>
    ensures { Pulls 1 file_in result reader.old reader.new }
{
    open(reader)?;
    let path = next_text(alloc, reader)?;
    let content = next_content(alloc, reader)?;
    end(reader)?;
    Ok(NamedFile { path, content })
}
