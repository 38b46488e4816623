// The information block that a kernel is handed: its length, known before any placing, and its bytes.
#![tactic(auto)]

pub mod size;
pub mod write;

// The fields of the information structure; its other words are zero.
#[derive(Clone, Copy)]
pub struct Structure {
    // which fields are given
    pub flags: u32,
    // the sizes of lower and of upper memory in KiB
    pub mem_lower: u32,
    pub mem_upper: u32,
    // the address of the command line
    pub cmdline: u32,
    // how many modules there are, and the address of their entries
    pub mods_count: u32,
    pub mods_addr: u32,
    // the length of the memory map in bytes, and its address
    pub mmap_length: u32,
    pub mmap_addr: u32,
    // the address of the loader's name
    pub boot_loader_name: u32,
}
