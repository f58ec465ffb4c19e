// Names in a field of their own width: the name, padded with spaces.
ghost use Rattle.std.specs.Prelude.{◌≡◌, ◌≤◌, length};
ghost use Rattle.metafile.specs.Bytes.{same};
ghost use Rattle.metafile.specs.Fields.{padded};

// Whether the bytes of a field are the name.
pub fn is_padded(field: &[u8], name: &[u8]) -> bool
    requires { length field.now ≤ 256 }
    ensures { result ≡ same field.now (padded (length field.now) name.now) }
{
    if field.len() < name.len() {
        return false;
    }
    let (first, rest) = field.split_at(name.len());
    if !search::same_bytes(first, name) {
        return false;
    }
    let spaces = [b' '; 256];
    search::same_bytes(rest, &spaces[..rest.len()])
}
