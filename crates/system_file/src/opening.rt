//! How the file of a node is opened, or made.
ghost use Rattle.std.specs.Prelude.{◌⊎◌, Some, IfOk, OnOk, IfErr};
ghost use Rattle.file_disk.specs.Answers.{Finds};
ghost use Rattle.system_file.specs.Opened.{IsReady, IsUnready, IsNotThere, IsNotMade};

use crate::new_files::NewFiles;
use crate::open_refusal::OpenRefusal;
use file_disk::{DiskFile, FileSystem, Standing};

/// Opens the plain file at a path, which is to be there. It is locked until it is dropped. It and its folder are synced,
/// so that a read gives what a crash leaves.
pub fn open_existing<F: DiskFile + Drop, R: FileSystem<F>>(
    rt: &R,
    path: &str,
) -> Result<F, OpenRefusal>
    ensures ok { IfOk result (λ f. R.FileSystem.told rt.now (Finds path.now (Some f))
        × IsReady (R.FileSystem.told rt.now) F.told path.now f) }
    ensures err { IfErr result (λ why. IsNotThere (R.FileSystem.told rt.now) path.now why
        ⊎ ((f : F) × R.FileSystem.told rt.now (Finds path.now (Some f))
        × IsUnready (R.FileSystem.told rt.now) F.told path.now f why)) }
{
    let file = find(rt, path)?;
    make_ready(rt, path, &file)?;
    Ok(file)
}

/// Makes a file at a path where nothing stands, and opens it so.
pub fn make_new<F: DiskFile + Drop, R: FileSystem<F> + NewFiles<F>>(
    rt: &R,
    path: &str,
) -> Result<F, OpenRefusal>
    ensures ok { IfOk result (λ f. R.NewFiles.made rt.now path.now (Some f)
        × IsReady (R.FileSystem.told rt.now) F.told path.now f) }
    ensures err { IfErr result (λ why. IsNotMade (R.NewFiles.made rt.now) (R.NewFiles.failed rt.now) path.now why
        ⊎ ((f : F) × R.NewFiles.made rt.now path.now (Some f)
        × IsUnready (R.FileSystem.told rt.now) F.told path.now f why)) }
{
    let file = make(rt, path)?;
    make_ready(rt, path, &file)?;
    Ok(file)
}

// Finds the plain file at a path, and opens it.
fn find<F: DiskFile, R: FileSystem<F>>(rt: &R, path: &str) -> Result<F, OpenRefusal>
    ensures ok { IfOk result (λ f. R.FileSystem.told rt.now (Finds path.now (Some f))) }
    ensures err { IfErr result (IsNotThere (R.FileSystem.told rt.now) path.now) }
{
    match rt.what_stands(path)? {
        Standing::Other => Err(OpenRefusal::NotPlain),
        Standing::Nothing => Err(OpenRefusal::Missing),
        Standing::PlainFile => match rt.open_existing(path)? {
            Some(file) => Ok(file),
            None => Err(OpenRefusal::Missing),
        },
    }
}

// Makes a file at a path, and opens it.
fn make<F: DiskFile, R: NewFiles<F>>(rt: &R, path: &str) -> Result<F, OpenRefusal>
    ensures ok { IfOk result (λ f. R.NewFiles.made rt.now path.now (Some f)) }
    ensures err { IfErr result (IsNotMade (R.NewFiles.made rt.now) (R.NewFiles.failed rt.now) path.now) }
{
    match rt.make_new(path)? {
        Some(file) => Ok(file),
        None => Err(OpenRefusal::Exists),
    }
}

// Locks an open file, if the path still leads to it and it is plain, and makes it and its folder safe.
fn make_ready<F: DiskFile, R: FileSystem<F>>(
    rt: &R,
    path: &str,
    file: &F,
) -> Result<(), OpenRefusal>
    ensures ok { OnOk result (IsReady (R.FileSystem.told rt.now) F.told path.now file.now) }
    ensures err { IfErr result (IsUnready (R.FileSystem.told rt.now) F.told path.now file.now) }
{
    if !file.try_to_lock()? {
        return Err(OpenRefusal::Locked);
    }
    if !rt.leads_to(path, file)? {
        return Err(OpenRefusal::Replaced);
    }
    if file.measure()?.is_none() {
        return Err(OpenRefusal::NotPlain);
    }
    file.settle()?;
    rt.sync_folder(path)?;
    Ok(())
}
