//! The jobs, and the shape of the release that each is done on.

/// A job that a user of rim waits for.
#[derive(Clone, Copy, PartialEq, Eq)]
pub enum Job {
    /// A release is audited: few launches over one kernel and one initrd.
    Audit,
    /// A release of many launches over several kernels and initrds is measured by four workers.
    Release,
    /// The listing of one large guest is made, and replayed.
    List,
    /// Guests of many processors are measured by four workers.
    Recs,
    /// Launches that begin alike and have their RAM in small entries are measured by four workers.
    Alike,
    /// One large guest is measured on one thread, by SHA-512.
    Guest,
}

/// Whether a job is done on its whole release, or on a small one of the same kind.
#[derive(Clone, Copy, PartialEq, Eq)]
pub enum Size {
    Full,
    Small,
}

impl Size {
    pub fn named(name: &str) -> Option<Size> {
        match name {
            "full" => Some(Size::Full),
            "small" => Some(Size::Small),
            _ => None,
        }
    }
}

/// The release of a job. Sizes are in bytes. Launch n has kernel `n % kernels` and initrd `n % initrds`, and RAM that begins
/// at 1 GiB and ends after `ram` and `n % ram_sizes` times `ram_step`.
#[derive(Clone, Copy)]
pub struct Shape {
    pub kernels: u64,
    pub kernel_size: usize,
    pub initrds: u64,
    pub initrd_size: usize,
    pub launches: u64,
    pub hashing: Hashing,
    pub ram: u64,
    pub ram_sizes: u64,
    pub ram_step: u64,
    pub block_level: u8,
    pub recs: u64,
}

/// By which algorithm launches are measured.
#[derive(Clone, Copy, PartialEq, Eq)]
pub enum Hashing {
    Sha256,
    Sha512,
    /// Each fourth launch by SHA-512.
    Both,
}

const MIB: usize = 1 << 20;

const RAM_MIB: u64 = 1 << 20;

impl Job {
    /// The jobs, each after its name.
    pub const NAMED: [(&'static str, Job); 6] = [
        ("audit", Job::Audit),
        ("release", Job::Release),
        ("list", Job::List),
        ("recs", Job::Recs),
        ("alike", Job::Alike),
        ("guest", Job::Guest),
    ];

    pub fn named(name: &str) -> Option<Job> {
        for (known, job) in Job::NAMED {
            if known == name {
                return Some(job);
            }
        }
        None
    }

    pub fn shape(self, size: Size) -> Shape {
        match size {
            Size::Full => self.full(),
            Size::Small => self.small(),
        }
    }

    /// The whole release.
    fn full(self) -> Shape {
        match self {
            Job::Audit => Shape {
                kernels: 1,
                kernel_size: 27 * MIB + 2_560,
                initrds: 1,
                initrd_size: 40 * MIB + 813,
                launches: 12,
                hashing: Hashing::Both,
                ram: 512 * RAM_MIB,
                ram_sizes: 3,
                ram_step: 512 * RAM_MIB,
                block_level: 2,
                recs: 4,
            },
            Job::Release => Shape {
                kernels: 8,
                kernel_size: 30 * MIB,
                initrds: 16,
                initrd_size: 20 * MIB + 1_000,
                launches: 200,
                hashing: Hashing::Both,
                ram: 256 * RAM_MIB,
                ram_sizes: 200,
                ram_step: 2 * RAM_MIB,
                block_level: 2,
                recs: 2,
            },
            Job::List => Shape {
                kernels: 1,
                kernel_size: 30 * MIB + 512,
                initrds: 1,
                initrd_size: 160 * MIB + 77,
                launches: 1,
                hashing: Hashing::Sha256,
                ram: 2_048 * RAM_MIB,
                ram_sizes: 1,
                ram_step: 0,
                block_level: 2,
                recs: 8,
            },
            Job::Recs => Shape {
                kernels: 1,
                kernel_size: 2 * MIB,
                initrds: 1,
                initrd_size: 3 * MIB + 5,
                launches: 768,
                hashing: Hashing::Both,
                ram: 256 * RAM_MIB,
                ram_sizes: 16,
                ram_step: 128 * RAM_MIB,
                block_level: 2,
                recs: 512,
            },
            Job::Alike => Shape {
                kernels: 1,
                kernel_size: 8 * MIB,
                initrds: 1,
                initrd_size: 4 * MIB + 4_095,
                launches: 12,
                hashing: Hashing::Sha256,
                ram: 256 * RAM_MIB,
                ram_sizes: 12,
                ram_step: 256 * RAM_MIB,
                block_level: 3,
                recs: 1,
            },
            Job::Guest => Shape {
                kernels: 1,
                kernel_size: 30 * MIB,
                initrds: 1,
                initrd_size: 250 * MIB + 1_234,
                launches: 1,
                hashing: Hashing::Sha512,
                ram: 2_048 * RAM_MIB,
                ram_sizes: 1,
                ram_step: 0,
                block_level: 3,
                recs: 4,
            },
        }
    }

    /// A small release of the same kind.
    fn small(self) -> Shape {
        let full = self.full();
        Shape {
            kernels: full.kernels.min(2),
            kernel_size: 40_960,
            initrds: full.initrds.min(2),
            initrd_size: 20_000 + full.initrd_size % 4_096,
            launches: full.launches.min(4),
            hashing: full.hashing,
            ram: 256 * RAM_MIB,
            ram_sizes: full.ram_sizes.min(2),
            ram_step: full.ram_step / 128,
            block_level: 2,
            recs: full.recs.min(20),
        }
    }
}
