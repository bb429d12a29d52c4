// The version of the library: 10000 major + 100 minor + patch. include/mealbis.h has the same number as MEALBIS_VERSION, so that a
// program can tell whether the header that it was compiled with and the archive that it was linked with belong together.
ghost use Rattle.std.specs.Prelude.{◌≡◌};

#[unsafe(no_mangle)]
pub extern "C" fn mealbis_version() -> u32
    ensures { result ≡ 40000 }
{
    40000
}
