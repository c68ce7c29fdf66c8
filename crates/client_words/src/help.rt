//! What `--help` and `--version` print.
ghost use Rattle.std.specs.Prelude.{◌≡◌};
ghost use Rattle.client_words.specs.Help.{help_text, version_text};

/// What `--version` prints.
pub fn version_text() -> &'static [u8]
    ensures value { result.now ≡ version_text }
{
    b"seaf-cli 0.1\n"
}

/// What `--help` prints.
pub fn help_text() -> &'static [u8]
    ensures value { result.now ≡ help_text }
{
    b"usage: seaf-cli init -c CONF\n       seaf-cli list -c CONF\n       seaf-cli status -c CONF\n       seaf-cli download -c CONF -l LIB -s http://HOST:PORT -w FOLDER -u USER -k TOKEN\n       seaf-cli sync -c CONF -l LIB -s http://HOST:PORT -d FOLDER -u USER -k TOKEN\n       seaf-cli desync -c CONF -d FOLDER\n       seaf-cli start -c CONF -n TURNS\nCONF keeps the list of synced folders. FOLDER is the synced folder itself.\nLIB is a UUID. TOKEN has 40 lower-case hexadecimal digits.\nstart syncs each folder of the list TURNS times, from 1 to 1000000.\n"
}
