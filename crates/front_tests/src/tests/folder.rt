//! Tests of paths of the disk, and of the front of a file.

use star_checks::{holds, reads};
use star_folder::disk::path_of;
use star_folder::folder::Kind;
use star_folder::system::{Disk, SystemDisk};
use star_label::label::Label;
use std::fs;
use std::test::Fail;

#[test]
fn files_of_the_disk(rt: HostRuntime) -> Result<(), Fail> {
    let alloc = rt.alloc();
    let label = Label::read(alloc, "//a/b:c.star", "")?;
    for (top, want) in [
        ("top", "top/a/b/c.star"),
        ("/", "//a/b/c.star"),
        ("", "a/b/c.star"),
    ] {
        reads!(&rt; path_of(alloc, top, &label)?.as_str(), want);
    }
    let label = Label::read(alloc, "//:BUILD", "")?;
    reads!(&rt; path_of(alloc, ".", &label)?.as_str(), ".//BUILD");
    Ok(())
}

#[test]
fn files_of_the_system(rt: HostRuntime) -> Result<(), Fail> {
    let alloc = rt.alloc();
    let disk = SystemDisk::new(&rt);
    fs::create_dir(&rt, "a-folder")?;
    fs::write(&rt, "a-folder/a-file", "x = 1")?;
    let size = disk.size("a-folder/a-file")?;
    let front = disk.read(alloc, "a-folder/a-file", 3, 5)?;
    let entries = disk.list(alloc, "a-folder")?;
    let real = disk.real(alloc, "a-folder/../a-folder/a-file")?;
    let nothing = disk.real(alloc, "a-folder/no-file")?;
    let folder = disk.size("a-folder")?;
    fs::remove_file(&rt, "a-folder/a-file")?;
    fs::remove_dir(&rt, "a-folder")?;
    holds!(&rt; size == Some(5) && folder == None);
    holds!(&rt; front.as_slice() == b"x =".as_slice());
    holds!(&rt; entries.are_all && entries.named.get("a-file") == Some(&Kind::File) && entries.named.len() == 1);
    holds!(&rt; real.is_some_and(|real| real.as_str().ends_with("/a-folder/a-file")) && nothing.is_none());
    Ok(())
}
