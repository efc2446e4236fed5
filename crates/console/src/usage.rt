//! What the program prints where it does not know a command.

pub const USAGE: &str = "usage: register [COMMAND]

  register                              plays a built-in story: the life of one bill
  register play                         plays the steps on standard input, one a line
  register play FILE                    plays the steps in a file
  register seal KEY RECORD              prints the record with its seal filled in under the key
  register vouch KEY RECORD             says whether the record's seal is good under the key
  register explain F MESSAGE [KEYFILE]  says what a message to a pool of 3F+1 sites is, or why it is refused
  register explain                      explains each line of standard input: F and a message

A key is 32 bytes, a record 80 and a message records end to end, all in hexadecimal. Seals of a message are judged
where a key file is given: 32 lines of 64 digits, the sites' 16 keys and then the clients' 16.

The steps, where CLIENT is a number from 0 to 15:

  titles CLIENT issue TITLE RECEIVER      client 0 gives an unissued title to a client
  titles CLIENT transfer TITLE RECEIVER   the holder gives a title to another client
  titles CLIENT surrender TITLE           the holder gives a title up for good
  titles CLIENT look TITLE                who holds a title
  titles back                             takes the last write on titles back
  slots CLIENT move ACCOUNT AMOUNT        moves slots from the client's account to another
  slots CLIENT look ACCOUNT               what an account holds
  slots back                              takes the last write on slots back
  # a comment
";
