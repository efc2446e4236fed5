//! What the program prints where it does not know a command.

pub const USAGE: &str = "usage: register [COMMAND]

  register                              plays a built-in story: a pool, a clash, a late site and a liar
  register play                         plays the lines on standard input, one command each
  register play FILE                    plays the lines in a file
  register seal KEY RECORD              prints the record with its seal filled in under the key
  register vouch KEY RECORD             says whether the record's seal is good under the key
  register explain F MESSAGE [KEYFILE]  says what a message to a pool of 3F+1 sites is, or why it is refused
  register explain                      explains each line of standard input: F and a message

A key is 32 bytes, a record 80 and a message records end to end, all in hexadecimal. Seals of a message are judged
where a key file is given: 32 lines of 64 digits, the sites' 16 keys and then the clients' 16.

Lines for people, where CLIENT is a number from 0 to 15 and OPERATION is in words or in hexadecimal:

  pool F titles|slots            starts a fresh pool of 3F+1 sites
  write CLIENT OPERATION         a whole write: issue TITLE RECEIVER, transfer TITLE RECEIVER, surrender TITLE, move ACCOUNT AMOUNT
  read CLIENT OPERATION          a whole reading: look TITLE, look ACCOUNT
  again CLIENT                   goes on with a write that stayed open
  down SITE, up SITE             a site cannot be reached, or can be again
  lie SITE, honest SITE          a site grants whatever it is asked, or keeps the rules
  resend SITE                    hands a site the certificates and rounds that it missed
  compare                        where each site stands, and whether all agree

Lines on single calls, with bytes in hexadecimal, and - for none:

  call SITE HEX [OUTLEN [BOARDLEN]]   hands bytes to a site
  state SITE                          what a site keeps
  seal HEX                            records with their seals filled in
  office CLIENT [LAST]                makes an office, which goes on after its last number
  begin CLIENT OP, take CLIENT HEX, judge CLIENT, close CLIENT, giveup CLIENT
  query CLIENT OP NONCE, judgeread CLIENT

Lines on an object alone, without a pool:

  titles CLIENT issue TITLE RECEIVER      client 0 gives an unissued title to a client
  titles CLIENT transfer TITLE RECEIVER   the holder gives a title to another client
  titles CLIENT surrender TITLE           the holder gives a title up for good
  titles CLIENT look TITLE                who holds a title
  titles back                             takes the last write on titles back
  slots CLIENT move ACCOUNT AMOUNT        moves slots from the client's account to another
  slots CLIENT look ACCOUNT               what an account holds
  slots back                              takes the last write on slots back
  # a comment
";
