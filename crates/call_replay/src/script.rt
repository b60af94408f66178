// The calls of a script.
use anyhow::anyhow;

// A call on a sheet, as a line of a script has it.
#[derive(Clone, Copy)]
pub(crate) enum Call<'a> {
    Descend,
    Lay,
    Aside,
    Save(&'a str),
    Resume(&'a str),
}

// The call that a line names: one word and, behind `save` and `resume`, the path of a file.
pub(crate) fn call_of(line: &str) -> anyhow::Result<Call<'_>> {
    let (word, path) = line.split_once(' ').unwrap_or((line, ""));
    match word {
        "descend" => Ok(Call::Descend),
        "lay" => Ok(Call::Lay),
        "aside" => Ok(Call::Aside),
        "save" => Ok(Call::Save(path)),
        "resume" => Ok(Call::Resume(path)),
        _ => Err(anyhow!("no call: {line}")),
    }
}
