//! The repositories of `workload`, and what it prints of them.
ghost use Rattle.std.specs.Prelude.{◌≡◌, ◌++◌, IfOk, OnOk, codes, decimal};
ghost use Rattle.rdf_server.specs.WorkTexts.{count_line, count_lines, work_names};

use itoa::Buffer;
use rdf_term::{Bytes, Memory, Text};
use std::alloc::Global;
use worker_pool::RepoCount;

/// The ID of a worker's own repository.
fn own_name(alloc: Global, worker: u32) -> Result<Text, Memory>
    ensures { IfOk result (λ it. it ≡ codes "w" ++ decimal worker) }
{
    let mut digits = Buffer::new();
    let mut name = Text::from_char_slice(alloc, &['w'])?;
    name.append(digits.format(worker))?;
    Ok(name)
}

/// The IDs of the repositories of so many workers: one for each, and one for all.
pub(crate) fn work_names(alloc: Global, workers: u32) -> Result<Vec<Text>, Memory>
    ensures { IfOk result (λ it. it.items ≡ work_names workers) }
{
    let mut names = Vec::new(alloc);
    for worker in 0..workers {
        names.push(own_name(alloc, worker)?)?;
    }
    names.push(Text::from_char_slice(alloc, &['a', 'l', 'l'])?)?;
    Ok(names)
}

/// Appends the line of a repository.
fn put_count(name: &Text, count: RepoCount, out: &mut Bytes) -> Result<(), Memory>
    ensures { OnOk result (out.new.items ≡ out.old.items ++ count_line name.now count) }
{
    out.append(name.as_str().as_bytes())?;
    out.append(b" quads ")?;
    out.append_decimal(count.quads)?;
    out.append(b" commits ")?;
    out.append_decimal(count.commits)?;
    out.append(b" entries ")?;
    out.append_decimal(count.entries)?;
    out.append(b"\n")?;
    Ok(())
}

/// Appends the lines of repositories, of which there are few, in order.
pub(crate) fn put_counts(
    names: &[Text],
    counts: &[RepoCount],
    out: &mut Bytes,
) -> Result<(), Memory>
    ensures { OnOk result (out.new.items ≡ out.old.items ++ count_lines names.now counts.now) }
{
    let Some((name, other_names)) = names.split_first() else {
        return Ok(());
    };
    let Some((count, other_counts)) = counts.split_first() else {
        return Ok(());
    };
    put_count(name, *count, out)?;
    put_counts(other_names, other_counts, out)?;
    Ok(())
}
