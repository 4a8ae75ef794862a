// Writes the converted file: whole or not at all. No contract can say what a disk holds; these functions are safe.
use anyhow::{Context, bail};
use std::fs::{self, File};
use std::io::{self, ErrorKind, Write};
use std::rt::Files;

// The file that is to be written, and whether one that is there is replaced.
#[derive(Debug, Drop)]
pub struct NewFile {
    pub path: String,
    pub force: bool,
}

impl NewFile {
    // Writes the file. Where one is there, it is written beside and then renamed, so that a reader finds the old or the new one.
    pub fn write(
        &self,
        rt: &(impl Files<File = File> + AllocGlobal),
        bytes: &[u8],
    ) -> anyhow::Result<()> {
        let path = self.path.as_str();
        match create(rt, path, bytes) {
            Err(e) if e.kind() == ErrorKind::AlreadyExists => {}
            written => {
                let words = format!(in rt.alloc(); "{path} cannot be written")?;
                return written.context(words);
            }
        }
        if !is_file(rt, path) {
            bail!("{path} exists and is not a regular file");
        }
        if !self.force {
            bail!("{path} already exists (--force replaces it)");
        }
        let beside = format!(in rt.alloc(); "{path}.part")?;
        create(rt, beside.as_str(), bytes).context("the new file cannot be written beside it")?;
        let renamed = fs::rename(rt, beside.as_str(), path);
        if renamed.is_err() {
            remove(rt, beside.as_str());
        }
        renamed.context("the file cannot be replaced")
    }
}

// Creates a file, which must not be there. One that cannot be written whole is removed.
fn create(rt: &impl Files<File = File>, path: &str, bytes: &[u8]) -> io::Result<()> {
    let mut file = File::create_new(rt, path)?;
    let written = file.write_all(bytes).and_then(|()| file.sync_all());
    if written.is_err() {
        remove(rt, path);
    }
    written
}

// Removes a file that was begun. Where that fails nothing more can be done.
fn remove(rt: &impl Files<File = File>, path: &str) {
    fs::remove_file(rt, path).unwrap_or(());
}

// Whether a file stands there, and no folder, device or link.
fn is_file(rt: &impl Files<File = File>, path: &str) -> bool {
    match fs::symlink_metadata(rt, path) {
        Ok(found) => found.is_file(),
        Err(_) => false,
    }
}
